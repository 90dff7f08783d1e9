// Songs: name and length, one entry of a playlist, and a whole playlist. Each query gives the module's own refusal, then 18, then 17.

#![tactic(auto)]

ghost use Rattle.std.specs.Prelude.{◌≡◌, length};
ghost use Rattle.refusal.specs.Lengths.{length_if, output_of};
ghost use Rattle.numbers.specs.Numbers.{SmallPlace};
ghost use Rattle.songs.specs.Shown.{no_song, shown_song, song_answer, no_entry, entry_in, entry_answer, playlist_size};
ghost use Rattle.songs.specs.Shown.{playlist_bytes, playlist_answer, playlist_output};

use blocks::RecordKind;
use blocks::stored::{SONG_ENTRIES, song_entry, song_length};
use numbers::copy;
use queries::{find, name};
use refusal::{LengthAnswer, Outcome, Reason, Refusal, refuse};

// A song: its name, and the number of entries of its playlist.
#[repr(C)]
#[derive(Clone, Copy)]
pub struct SongAnswer {
    pub outcome: Outcome,
    pub name: [u8; 44],
    pub length: u16,
}

// An entry of a playlist: the number of a pattern.
#[repr(C)]
#[derive(Clone, Copy)]
pub struct EntryAnswer {
    pub outcome: Outcome,
    pub pattern: u16,
}

fn no_song(r: Refusal) -> SongAnswer
    ensures { result ≡ no_song r }
{
    SongAnswer {
        outcome: Outcome::from(Err(r)),
        name: [0; 44],
        length: 0,
    }
}

// The song whose block is at a place.
fn song_at(m: &[u8], at: usize) -> SongAnswer
    ensures { result ≡ shown_song m.now at }
{
    SongAnswer {
        outcome: Outcome::from(Ok(())),
        name: name(m, at),
        length: song_length(m, at),
    }
}

// A song, counted from 0.
pub fn song(m: &[u8], song: usize) -> SongAnswer
    ensures { result ≡ song_answer m.now song }
{
    match find(m, RecordKind::Song, song) {
        Ok(b) => song_at(m, b.at),
        Err(r) => no_song(r),
    }
}

fn no_entry(r: Refusal) -> EntryAnswer
    ensures { result ≡ no_entry r }
{
    EntryAnswer {
        outcome: Outcome::from(Err(r)),
        pattern: 0,
    }
}

// An entry of the song whose block is at a place: 18.
fn entry_in(m: &[u8], at: usize, entry: usize) -> EntryAnswer
    ensures { result ≡ entry_in m.now at entry }
{
    if (song_length(m, at) as usize) <= entry {
        return no_entry(refuse(Reason::NotThere, 0));
    }
    EntryAnswer {
        outcome: Outcome::from(Ok(())),
        pattern: song_entry(m, at, entry as u16),
    }
}

// An entry of a song's playlist, both counted from 0.
pub fn entry(m: &[u8], song: usize, entry: usize) -> EntryAnswer
    ensures { result ≡ entry_answer m.now song entry }
{
    match find(m, RecordKind::Song, song) {
        Ok(b) => entry_in(m, b.at, entry),
        Err(r) => no_entry(r),
    }
}

// Writes the playlist of the song whose block is at a place: 17.
fn write_playlist(m: &[u8], at: usize, out: &mut [u8]) -> LengthAnswer
    requires { SmallPlace at }
    ensures { (result ≡ length_if (playlist_size m.now at) (length out.old))
        × (out.new ≡ output_of (playlist_size m.now at) (playlist_bytes m.now at) out.old) }
{
    let needed = 2 * (song_length(m, at) as usize);
    if out.len() < needed {
        return LengthAnswer::from(Err(refuse(Reason::Room, needed)));
    }
    copy(m, at + SONG_ENTRIES, &mut out[..needed]);
    LengthAnswer::from(Ok(needed))
}

// Writes a song's playlist, 2 bytes for each entry.
pub fn playlist(m: &[u8], song: usize, out: &mut [u8]) -> LengthAnswer
    ensures { (result ≡ playlist_answer m.now song (length out.old))
        × (out.new ≡ playlist_output m.now song out.old) }
{
    match find(m, RecordKind::Song, song) {
        Ok(b) => write_playlist(m, b.at, out),
        Err(r) => LengthAnswer::from(Err(r)),
    }
}
