// A statement of section 4: its record, what it adds to the tables, and its check.
// Regions and maps are two parameters: whoever calls holds them as two sections, and a struct of the two would be made for this
// file alone.
// `s < 64` is a clause: s is a place in the section, which a record does not hold; `kind_at` takes a slice, as its caller in `plan`
// has it.
// `StatementAt` is of a record and of every plan that has it as statement s: no field of the record could hold that.
// Numbers are narrowed by `as`: the bound is proved, and `try_from` would have a case that never comes.
ghost use Rattle.std.specs.Prelude.{◌≡◌, ℕ, ◌/◌, ◌<◌, length, false};
ghost use Rattle.model.specs.Layout.{Plan};
ghost use Rattle.model.specs.Statements as Statements;
ghost use Rattle.model.specs.Statements.{kind, operand, access_field, operand_definition, variable_region, operand_region, region_by, centered_by, statement_formed, statement_agrees, statement_check};
ghost use Rattle.loops.specs.Statements.{StatementAt, StatementContext, EarlierStatements, EntryAt};
ghost use Rattle.loops.specs.Tables.{Table};

use crate::lookup::earlier;
use crate::tables::StatementTables;
use crate::variables::Variables;
use model::{Refusal, StatementKind};
use primitives::bytes::byte_at;
use primitives::lookup::entry_or;
use primitives::outcomes::require;
use primitives::records::{map_source, map_target};

// A record of section 4.
#[derive(Clone, Copy)]
pub struct Statement {
    pub kind: StatementKind,
    pub a: u8,
    pub b: u8,
    pub c: u8,
}

// What the tables take of a statement: the definition of the variable that it works on, the region of the variable that
// it defines, and whether that one is centered.
#[derive(Clone, Copy)]
pub struct StatementEntry {
    pub operand: u8,
    pub region: u8,
    pub centered: bool,
}

// The kind of a statement. A function of its own: one with `primitives::records::node_kind` would take a trait that says of each
// enum what its definition is.
#[tactic(auto, unfolding(model::specs::Statements::kind))]
pub fn kind_at(statements: &[u8], s: usize) -> StatementKind
    requires { s < 64 }
    ensures { (P : Plan) → P.statements ≡ statements.now → result ≡ kind P s }
{
    StatementKind::from(entry_or(statements, s * 4, 0))
}

// The record of statement s, which is there. A reader of its own, as nodes and steps have: one over the width would take a closure
// with clauses for places that are plain here.
#[tactic(auto, unfolding(model::specs::Statements::kind))]
pub fn statement_at(statements: &[u8], s: usize) -> Statement
    requires { s < length statements.now / 4 }
    ensures { (P : Plan) → P.statements ≡ statements.now → StatementAt P s result }
{
    Statement {
        kind: StatementKind::from(statements[s * 4]),
        a: statements[s * 4 + 1],
        b: statements[s * 4 + 2],
        c: statements[s * 4 + 3],
    }
}

// What the tables take of statement s, from what they hold of the statements before it: of any slice of definitions.
pub fn entry_of(
    maps: &[u8],
    statement: Statement,
    s: usize,
    definitions: &[u8],
    variable_regions: &[u8; 64],
    centered: &[bool; 64],
) -> StatementEntry
    requires { s < 64 }
    ensures { (P : Plan) → P.maps ≡ maps.now → StatementAt P s statement → EarlierStatements P s definitions.now variable_regions.now centered.now → EntryAt P s result }
{
    let operand = entry_or(definitions, usize::from(statement.operand()), 0);
    statement.entry_following(maps, s, operand, variable_regions, centered)
}

// One case for each kind, as in the definitions (project's form); 0 where the kind names no variable, field or region.
impl Statement {
    // The number of the variable that it works on.
    #[tactic(auto, unfolding(model::specs::Statements::operand, model::specs::Statements::operand_by))]
    fn operand(self) -> u8
        ensures { (P : Plan) (s : ℕ) → StatementAt P s self → result ≡ operand P s }
    {
        match self.kind {
            StatementKind::For => 0,
            StatementKind::Load => self.b,
            StatementKind::Call => self.b,
            StatementKind::Copy => self.a,
            StatementKind::Read => self.a,
            StatementKind::Write => self.a,
            StatementKind::Reduce => self.a,
            StatementKind::Unknown => 0,
        }
    }

    // The field that it names, if it is an access: LOAD names it last, the others before that.
    #[tactic(auto, unfolding(model::specs::Statements::access_field, model::specs::Statements::field_by))]
    pub fn field(self) -> u8
        ensures { (P : Plan) (s : ℕ) → StatementAt P s self → result ≡ access_field P s }
    {
        match self.kind {
            StatementKind::For => 0,
            StatementKind::Load => self.c,
            StatementKind::Call => 0,
            StatementKind::Copy => 0,
            StatementKind::Read => self.b,
            StatementKind::Write => self.b,
            StatementKind::Reduce => self.b,
            StatementKind::Unknown => 0,
        }
    }

    // The region of the variable that it defines, given that of the variable it copies.
    #[tactic(auto, unfolding(model::specs::Statements::region_by))]
    fn variable_region(self, maps: &[u8], copied: u8) -> u8
        ensures { (P : Plan) (s : ℕ) → P.maps ≡ maps.now → StatementAt P s self → result ≡ region_by P (kind P s) s (λ d. copied) }
    {
        let target = map_target(maps, usize::from(self.a)) as u8;
        match self.kind {
            StatementKind::For => self.a,
            StatementKind::Load => target,
            StatementKind::Call => target,
            StatementKind::Copy => copied,
            StatementKind::Read => 0,
            StatementKind::Write => 0,
            StatementKind::Reduce => 0,
            StatementKind::Unknown => 0,
        }
    }

    // Whether the variable that it defines is centered, given whether the variable it copies is.
    #[tactic(auto, unfolding(model::specs::Statements::centered_by))]
    fn defines_centered(self, copied: bool) -> bool
        ensures { (P : Plan) (s : ℕ) → StatementAt P s self → result ≡ centered_by P (kind P s) s (λ d. copied) }
    {
        match self.kind {
            StatementKind::For => true,
            StatementKind::Load => false,
            StatementKind::Call => false,
            StatementKind::Copy => copied,
            StatementKind::Read => false,
            StatementKind::Write => false,
            StatementKind::Reduce => false,
            StatementKind::Unknown => false,
        }
    }

    // What the tables take of it, as statement s, given the statement that defined the variable that it works on.
    fn entry_following(
        self,
        maps: &[u8],
        s: usize,
        operand: u8,
        variable_regions: &[u8; 64],
        centered: &[bool; 64],
    ) -> StatementEntry
        requires { s < 64 }
        ensures { (P : Plan) → P.maps ≡ maps.now → StatementAt P s self → operand ≡ operand_definition P s → Table 0 s variable_regions.now (variable_region P) → Table false s centered.now (Statements.centered P) → EntryAt P s result }
    {
        let followed = usize::from(operand);
        let copied_region = earlier(variable_regions, s, followed).unwrap_or(0);
        let copied_centered = earlier(centered, s, followed).unwrap_or(false);
        StatementEntry {
            operand,
            region: self.variable_region(maps, copied_region),
            centered: self.defines_centered(copied_centered),
        }
    }

    // The same from what variables and tables hold of the statements before it. They are two parameters: the tables outlive the
    // pass, the variables do not.
    pub(crate) fn entry(
        self,
        maps: &[u8],
        s: usize,
        variables: &Variables,
        tables: &StatementTables,
    ) -> StatementEntry
        requires { s < 64 }
        ensures { (P : Plan) → P.maps ≡ maps.now → StatementAt P s self → EarlierStatements P s variables.now.definitions tables.now.variable_regions tables.now.centered → EntryAt P s result }
    {
        let operand = variables.definition(self.operand());
        self.entry_following(maps, s, operand, &tables.variable_regions, &tables.centered)
    }

    // Whether it is of a known kind with all its numbers in range and its unused bytes 0.
    #[tactic(auto, using(primitives::proofs::OpenTests::tests_open), unfolding(model::specs::Statements::statement_formed, model::specs::Statements::statement_formed_by))]
    fn is_formed(self, regions: &[u8], maps: &[u8], count: usize, region: usize) -> bool
        ensures { (P : Plan) (s : ℕ) → P.regions ≡ regions.now → P.maps ≡ maps.now → StatementAt P s self → StatementContext P s count region → result ≡ statement_formed P s }
    {
        let a = usize::from(self.a);
        let b = usize::from(self.b);
        let c = usize::from(self.c);
        let fields = byte_at(regions, region);
        match self.kind {
            StatementKind::For => a < regions.len() && b == 0 && c == 0,
            StatementKind::Load => a < maps.len() / 3 && b < count && count < 16 && c < fields,
            StatementKind::Call => a < maps.len() / 3 && b < count && count < 16 && c == 0,
            StatementKind::Copy => a < count && count < 16 && b == 0 && c == 0,
            StatementKind::Read => a < count && b < fields && c == 0,
            StatementKind::Write => a < count && b < fields && c == 0,
            StatementKind::Reduce => a < count && b < fields && c < 4,
            StatementKind::Unknown => false,
        }
    }

    // Whether the map of a LOAD or CALL starts from the region of the variable that it follows.
    #[tactic(auto, using(primitives::proofs::OpenTests::tests_open), unfolding(model::specs::Statements::statement_agrees, model::specs::Statements::statement_agrees_by))]
    fn agrees_with_map(self, maps: &[u8], region: usize) -> bool
        ensures { (P : Plan) (s : ℕ) → P.maps ≡ maps.now → StatementAt P s self → region ≡ operand_region P s → result ≡ statement_agrees P s }
    {
        let source = map_source(maps, usize::from(self.a));
        match self.kind {
            StatementKind::For => true,
            StatementKind::Load => region == source,
            StatementKind::Call => region == source,
            StatementKind::Copy => true,
            StatementKind::Read => true,
            StatementKind::Write => true,
            StatementKind::Reduce => true,
            StatementKind::Unknown => true,
        }
    }

    // Its check as statement s, given the number of its loop's variables and the region of the one that it works on.
    #[tactic(auto, using(primitives::proofs::Stages::stages), unfolding(model::specs::Statements::statement_check))]
    pub fn check(
        self,
        regions: &[u8],
        maps: &[u8],
        s: usize,
        count: usize,
        region: usize,
    ) -> Result<(), Refusal>
        requires { s < 64 }
        ensures { (P : Plan) → P.regions ≡ regions.now → P.maps ≡ maps.now → StatementAt P s self → StatementContext P s count region → result ≡ statement_check P s }
    {
        let place = 4 * 256 + s;
        let formed = self.is_formed(regions, maps, count, region);
        let agrees = self.agrees_with_map(maps, region);
        require(formed, Refusal::InvalidRecord(place))?;
        require(agrees, Refusal::RegionMismatch(place))
    }
}
