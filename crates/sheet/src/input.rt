// Records from the bytes of a program's input.
ghost use Rattle.std.specs.Prelude.{◌≡◌, ◌≤◌, ◌%◌, ◌*◌, length};
ghost use Rattle.std.proofs.lemmas.List.Edits.{sets};
ghost use Rattle.sheet.specs.Write.{wrote};
ghost use Rattle.sheet.specs.Input.{records_of, input_of};

use crate::refusal::SheetRefusal;

// The records of `bytes`, low byte first, put into `out` from the front.
fn put_records(bytes: &[u8], out: &mut [u32])
    requires { (length bytes.now % 4 ≡ 0) × (length bytes.now ≤ length out.old * 4) }
    ensures { out.new ≡ sets out.old 0 (records_of bytes.now) }
{
    let (records, _) = bytes.as_chunks::<4>();
    for (i, record) in records.iter().enumerate() {
        out[i] = u32::from_le_bytes(*record);
    }
}

/// The records of a program's input (docs/SHEETS.md, What the program reads): they are put to the
/// front of `out`, and the answer is how many they are, 8,192 at most. What stands in `out` past
/// them stays. An input that is refused, by 27, leaves all of `out`.
// It answers no slice of the records, which would still hold `out`: the clause says what all of it
// has then.
#[tactic(auto, using(crate::proofs::InputLaws::records_in_front), unfolding(crate::specs::Input::input_records))]
pub fn records(bytes: &[u8], out: &mut [u32; 8192]) -> Result<usize, SheetRefusal>
    ensures { wrote result out.new ≡ input_of bytes.now out.old }
{
    if bytes.len() % 4 != 0 {
        return Err(SheetRefusal::Input);
    }
    if 32768 < bytes.len() {
        return Err(SheetRefusal::Input);
    }
    put_records(bytes, out);
    Ok(bytes.len() / 4)
}
