// The C entry points of packed rows. The fields of an answer are the numbers of the call's own answer. The check writes nothing, so its
// length is 0.

#![tactic(auto)]

ghost use Rattle.std.specs.Prelude.{◌≡◌, [], ◌∷◌, ◌++◌, length};
ghost use Rattle.refusal.specs.Numbers.{verdict_numbers};
ghost use Rattle.refusal.specs.Lengths.{length_numbers, value_numbers};
ghost use Rattle.packed_rows.specs.Answers.{check_answer, unpack_answer, unpack_output, pack_answer, pack_output};

use refusal::{LengthAnswer, Outcome};

// Checks a stream, for C.
#[unsafe(no_mangle)]
pub extern "C" fn dbm0_check_pattern(stream: &[u8], rows: usize, tracks: usize) -> LengthAnswer
    ensures { length_numbers result ≡ verdict_numbers (check_answer stream.now rows tracks) ++ (0 ∷ []) }
{
    LengthAnswer {
        outcome: Outcome::from(packed_rows::check(stream, rows, tracks)),
        length: 0,
    }
}

// Unpacks a stream, for C.
#[unsafe(no_mangle)]
pub extern "C" fn dbm0_unpack_pattern(
    stream: &[u8],
    rows: usize,
    tracks: usize,
    out: &mut [u8],
) -> LengthAnswer
    ensures { (length_numbers result ≡ value_numbers (unpack_answer stream.now rows tracks (length out.old)))
        × (out.new ≡ unpack_output stream.now rows tracks out.old) }
{
    LengthAnswer::from(packed_rows::unpack(stream, rows, tracks, out))
}

// Packs a pattern's cells, for C.
#[unsafe(no_mangle)]
pub extern "C" fn dbm0_pack_pattern(
    cells: &[u8],
    rows: usize,
    tracks: usize,
    out: &mut [u8],
) -> LengthAnswer
    ensures { (length_numbers result ≡ value_numbers (pack_answer cells.now rows tracks (length out.old)))
        × (out.new ≡ pack_output cells.now rows tracks out.old) }
{
    LengthAnswer::from(packed_rows::pack(cells, rows, tracks, out))
}
