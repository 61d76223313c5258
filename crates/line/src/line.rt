// The line's text.
ghost use Rattle.std.specs.Prelude.{◌≡◌, ℕ, ◌+◌, ◌*◌, ◌≤◌, ◌<◌, List, [], ◌∷◌, ◌++◌, length};
ghost use Rattle.arrayvec.specs.ArrayVec.{array_vec_len};
ghost use Rattle.line.specs.Decimal.{decimal_of};
ghost use Rattle.line.specs.Line.{field, fields};

use arrayvec::ArrayVec;

/// The text of a line, which has at most 128 bytes.
// (`write!` into one can fail, and no clause says that it doesn't.)
pub type Line = ArrayVec<u8, 128>;

/// Pushes a word, in ASCII. It fits, so this doesn't fail.
pub fn push_word(line: &mut Line, word: &[u8])
    requires { array_vec_len line.old + length word.now ≤ 128 }
    ensures { line.new.items ≡ line.old.items ++ word.now }
{
    let _ = line.try_extend_from_slice(word);
}

// Pushes a number in decimal.
#[tactic(auto, using(crate::proofs::LineLaws::number_laws))]
fn push_number(line: &mut Line, n: u32)
    requires { array_vec_len line.old + length (decimal_of n) ≤ 128 }
    ensures { line.new.items ≡ line.old.items ++ decimal_of n }
{
    if n < 10 {
        line.push(48 + n as u8);
    } else {
        push_number(line, n / 10);
        line.push(48 + (n % 10) as u8);
    }
}

/// Pushes a space and a number in decimal.
pub fn push_field(line: &mut Line, n: u32)
    requires { array_vec_len line.old + length (field n) ≤ 128 }
    ensures { line.new.items ≡ line.old.items ++ field n }
{
    line.push(b' ');
    push_number(line, n);
}

/// Pushes a space and a number for each word, which has five digits at most.
#[tactic(auto, using(crate::proofs::LineLaws::field_laws), unfolding(crate::specs::Line::fields))]
pub fn push_fields(line: &mut Line, words: &[u16])
    requires { array_vec_len line.old + length words.now * 6 ≤ 128 }
    ensures text { line.new.items ≡ line.old.items ++ fields words.now }
    ensures upper_bound { array_vec_len line.new ≤ array_vec_len line.old + length words.now * 6 }
{
    for word in words {
        push_field(line, u32::from(*word));
    }
}
