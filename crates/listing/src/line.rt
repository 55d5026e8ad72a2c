// A line, put together before it is written, so that a writer gets it by one write.
ghost use Rattle.std.specs.Prelude.{◌≡◌, ◌+◌, ◌≤◌, [], ◌∷◌, ◌++◌, length, decimal};
ghost use Rattle.arrayvec.specs.ArrayVec.{array_vec_len};
ghost use Rattle.listing.specs.Text.{spaced, longest};

use arrayvec::ArrayVec;
use itoa::Buffer;

// The longest line has two numbers of 64 bits and 512 members of three digits.
const LONGEST: usize = 2112;

pub type Line = ArrayVec<u8, LONGEST>;

// Puts text behind what the line has.
pub fn append(line: &mut Line, text: &[u8])
    requires { array_vec_len line.old + length text.now ≤ longest }
    ensures items { line.new.items ≡ line.old.items ++ text.now }
    ensures len { array_vec_len line.new ≡ array_vec_len line.old + length text.now }
{
    line.try_extend_from_slice(text).unwrap();
}

// Puts a byte behind it.
pub fn append_byte(line: &mut Line, byte: u8)
    requires { array_vec_len line.old + 1 ≤ longest }
    ensures items { line.new.items ≡ line.old.items ++ byte ∷ [] }
    ensures len { array_vec_len line.new ≡ array_vec_len line.old + 1 }
{
    line.push(byte);
}

// Puts a number in decimal behind it.
pub fn append_number(line: &mut Line, number: usize)
    requires { array_vec_len line.old + 20 ≤ longest }
    ensures items { line.new.items ≡ line.old.items ++ decimal number }
    ensures len { array_vec_len line.new ≡ array_vec_len line.old + length (decimal number) }
    ensures few { array_vec_len line.new ≤ array_vec_len line.old + 20 }
{
    append(line, Buffer::new().format(number).as_bytes());
}

// Puts a space and a number behind it.
pub fn append_spaced(line: &mut Line, number: usize)
    requires { array_vec_len line.old + 21 ≤ longest }
    ensures items { line.new.items ≡ line.old.items ++ spaced number }
    ensures len { array_vec_len line.new ≡ array_vec_len line.old + 1 + length (decimal number) }
    ensures few { array_vec_len line.new ≤ array_vec_len line.old + 21 }
{
    append_byte(line, b' ');
    append_number(line, number);
}
