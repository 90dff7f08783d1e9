// Printing answers.
ghost use Rattle.std.specs.Prelude.{◌≡◌};
ghost use Rattle.std.proofs.lemmas.List.Edits.{sets};
ghost use Rattle.refusal.specs.Numbers.{outcome_numbers};
ghost use Rattle.refusal.specs.Lengths.{length_numbers};
ghost use Rattle.cells.specs.Shown.{cell_values};
ghost use Rattle.conformance_text.specs.Text.{numbers_line, bytes_line};
ghost use Rattle.conformance_text.specs.Answers.{cell_line};

use crate::text::{print_bytes, print_numbers};
use cells::{Cell, NoteNumbers};
use refusal::{LengthAnswer, Outcome, Refusal};

// Prints the line of a check.
pub fn print_outcome(word: &[u8], outcome: Outcome, line: &mut [u8])
    ensures { line.new ≡ sets line.old 0 (numbers_line word.now (outcome_numbers outcome)) }
{
    print_numbers(word, &[outcome.number as usize, outcome.place], line);
}

// Prints the line of a call that fills an output, with the output.
pub fn print_output(word: &[u8], answer: LengthAnswer, out: &[u8], line: &mut [u8])
    ensures { line.new ≡ sets line.old 0 (bytes_line word.now (length_numbers answer) out.now) }
{
    let outcome = answer.outcome;
    let numbers = [outcome.number as usize, outcome.place, answer.length];
    print_bytes(word, &numbers, out, line);
}

// A cell in the numbers that are printed: its note in numbers, and its other fields.
pub fn cell_values(c: Cell) -> [usize; 9]
    ensures { result ≡ cell_values c }
{
    let note = c.note;
    let n = NoteNumbers::from(note);
    [
        n.kind as usize,
        n.octave as usize,
        n.semitone as usize,
        n.unknown as usize,
        c.instrument as usize,
        c.command1 as usize,
        c.parameter1 as usize,
        c.command2 as usize,
        c.parameter2 as usize,
    ]
}

// Prints the line for the answer to a query for a cell.
pub fn print_cell_answer(answer: Result<Cell, Refusal>, line: &mut [u8])
    ensures { line.new ≡ sets line.old 0 (cell_line answer) }
{
    match answer {
        Ok(c) => {
            let v = cell_values(c);
            let numbers = [0, 0, v[0], v[1], v[2], v[3], v[4], v[5], v[6], v[7], v[8]];
            print_numbers(b"cell", &numbers, line);
        }
        Err(r) => {
            let numbers = [r.number as usize, r.place, 0, 0, 0, 0, 0, 0, 0, 0, 0];
            print_numbers(b"cell", &numbers, line);
        }
    }
}
