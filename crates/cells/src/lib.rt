// Cells and notes as they are shown.

#![tactic(auto)]

ghost use Rattle.std.specs.Prelude.{◌≡◌};
ghost use Rattle.cells.specs.Shown.{is_pitch, shown_note, note_numbers, shown_cell};

// The note of a shown cell.
#[derive(Clone, Copy)]
pub enum Note {
    None,
    KeyOff,
    Pitch { octave: u8, semitone: u8 },
    Unknown(u8),
}

// A note in numbers: its kind (0 none, 1 key off, 2 pitch, 3 unknown), the octave and semitone of a pitch, the byte of an unknown note.
// What a kind does not have is 0. These are numbers because C reads them.
#[derive(Clone, Copy)]
pub struct NoteNumbers {
    pub kind: u8,
    pub octave: u8,
    pub semitone: u8,
    pub unknown: u8,
}

// A shown cell.
#[derive(Clone, Copy)]
pub struct Cell {
    pub note: Note,
    pub instrument: u8,
    pub command1: u8,
    pub parameter1: u8,
    pub command2: u8,
    pub parameter2: u8,
}

// The note of a byte.
fn shown_note(note: u8) -> Note
    ensures { result ≡ shown_note note }
{
    if note == 0 {
        return Note::None;
    }
    if note == 31 {
        return Note::KeyOff;
    }
    if is_pitch(note) {
        return Note::Pitch {
            octave: note / 16,
            semitone: note % 16,
        };
    }
    Note::Unknown(note)
}

// Whether a note is a pitch.
fn is_pitch(note: u8) -> bool
    ensures { result ≡ is_pitch note }
{
    (1 <= note / 16) & ((note / 16 <= 8) & (note % 16 <= 11))
}

impl From<Note> for NoteNumbers {
    // A note in numbers.
    ghost from_gives = { λ note given. given ≡ note_numbers note };

    fn from(note: Note) -> NoteNumbers {
        match note {
            Note::None => NoteNumbers {
                kind: 0,
                octave: 0,
                semitone: 0,
                unknown: 0,
            },
            Note::KeyOff => NoteNumbers {
                kind: 1,
                octave: 0,
                semitone: 0,
                unknown: 0,
            },
            Note::Pitch { octave, semitone } => NoteNumbers {
                kind: 2,
                octave,
                semitone,
                unknown: 0,
            },
            Note::Unknown(byte) => NoteNumbers {
                kind: 3,
                octave: 0,
                semitone: 0,
                unknown: byte,
            },
        }
    }
}

impl From<[u8; 6]> for Cell {
    // The shown cell of six stored bytes.
    ghost from_gives = { λ cell given. given ≡ shown_cell cell };

    fn from(cell: [u8; 6]) -> Cell {
        Cell {
            note: shown_note(cell[0]),
            instrument: cell[1],
            command1: cell[2],
            parameter1: cell[3],
            command2: cell[4],
            parameter2: cell[5],
        }
    }
}
