// Inputs that passed every check.
ghost use Rattle.std.specs.Prelude.{◌≡◌, ◌≤◌, Ok};
ghost use Rattle.model.specs.DataSets.{data_check};
ghost use Rattle.layout.specs.Sections.{plan_in};
ghost use Rattle.dataset.specs.Layout.{DataPlaced};

use dataset::layout::DataLayout;
use plan::Reading;

// An accepted plan, as it was read, and a data set that fits it, with its layout.
#[derive(Clone, Copy)]
pub struct Inputs<'a> {
    pub reading: Reading<'a>,
    pub layout: DataLayout<'a>,
    pub data: &'a [u8],
    pub ghost fits: { data_check (plan_in reading.sections) «data».now ≡ Ok tt },
    pub ghost few_pieces: { layout.pieces ≤ 16 },
    pub ghost placed: { DataPlaced (plan_in reading.sections) «data».now layout },
}
