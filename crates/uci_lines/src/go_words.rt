//! What the words after `go` ask.
ghost use Rattle.std.specs.Prelude.{◌≡◌, IfOk};
ghost use Rattle.session_model.specs.UciGo as UciGo;
ghost use Rattle.session_model.specs.UciGo.{go_of, go_read, with_read};
ghost use Rattle.uci_lines.specs.View.{texts};
ghost use Rattle.uci_lines.specs.GoView.{awaited_seen, go_seen, go_word_seen, key_seen, read_seen};

use crate::numbers::number;
use foundation::Memory;
use std::alloc::Global;

/// The limits that `go` names, where they could be read, and the words of `searchmoves`.
#[derive(Drop)]
pub struct Go<'a> {
    pub depth: Option<u64>,
    pub nodes: Option<u64>,
    pub mate: Option<u64>,
    /// Times and increments are in milliseconds.
    pub movetime: Option<u64>,
    pub wtime: Option<u64>,
    pub btime: Option<u64>,
    pub winc: Option<u64>,
    pub binc: Option<u64>,
    pub movestogo: Option<u64>,
    /// From 1 to 9.
    pub perft: Option<u64>,
    /// `infinite` or `ponder`: the best move is held back.
    pub holds: bool,
    pub searchmoves: Vec<&'a [u8]>,
}

// The words that take a number.
#[derive(Clone, Copy, PartialEq, Eq)]
enum Key {
    Depth,
    Nodes,
    Mate,
    MoveTime,
    WhiteTime,
    BlackTime,
    WhiteIncrement,
    BlackIncrement,
    MovesToGo,
    Perft,
}

// The words that begin something.
#[derive(Clone, Copy, PartialEq, Eq)]
enum GoWord {
    Takes(Key),
    Holds,
    SearchMoves,
}

// What the next word is for.
#[derive(Clone, Copy, PartialEq, Eq)]
enum Awaited {
    Nothing,
    Number(Key),
    Moves,
}

fn go_word(word: &[u8]) -> Option<GoWord>
    ensures { go_word_seen result ≡ UciGo.go_word word.now }
{
    if word == b"depth".as_slice() {
        Some(GoWord::Takes(Key::Depth))
    } else if word == b"nodes".as_slice() {
        Some(GoWord::Takes(Key::Nodes))
    } else if word == b"mate".as_slice() {
        Some(GoWord::Takes(Key::Mate))
    } else if word == b"movetime".as_slice() {
        Some(GoWord::Takes(Key::MoveTime))
    } else if word == b"wtime".as_slice() {
        Some(GoWord::Takes(Key::WhiteTime))
    } else if word == b"btime".as_slice() {
        Some(GoWord::Takes(Key::BlackTime))
    } else if word == b"winc".as_slice() {
        Some(GoWord::Takes(Key::WhiteIncrement))
    } else if word == b"binc".as_slice() {
        Some(GoWord::Takes(Key::BlackIncrement))
    } else if word == b"movestogo".as_slice() {
        Some(GoWord::Takes(Key::MovesToGo))
    } else if word == b"perft".as_slice() {
        Some(GoWord::Takes(Key::Perft))
    } else if word == b"infinite".as_slice() || word == b"ponder".as_slice() {
        Some(GoWord::Holds)
    } else if word == b"searchmoves".as_slice() {
        Some(GoWord::SearchMoves)
    } else {
        None
    }
}

// The number that a word is for a key.
fn key_number(key: Key, word: &[u8]) -> Option<u64>
    ensures { result ≡ UciGo.key_number (key_seen key) word.now }
{
    let read = number(word)?;
    match key {
        Key::Perft => {
            if 1 <= read && read <= 9 {
                Some(read)
            } else {
                None
            }
        }
        _ => Some(read),
    }
}

// A word that is not a number for the key leaves all as it was.
fn set_number(go: &mut Go, key: Key, word: &[u8])
    ensures { go_seen go.new ≡ with_read (go_seen go.old) (key_seen key) (UciGo.key_number (key_seen key) word.now) }
{
    let Some(read) = key_number(key, word) else {
        return;
    };
    match key {
        Key::Depth => go.depth = Some(read),
        Key::Nodes => go.nodes = Some(read),
        Key::Mate => go.mate = Some(read),
        Key::MoveTime => go.movetime = Some(read),
        Key::WhiteTime => go.wtime = Some(read),
        Key::BlackTime => go.btime = Some(read),
        Key::WhiteIncrement => go.winc = Some(read),
        Key::BlackIncrement => go.binc = Some(read),
        Key::MovesToGo => go.movestogo = Some(read),
        Key::Perft => go.perft = Some(read),
    }
}

// Another word is what the one before it waits for, or is skipped.
fn fill<'a>(go: &mut Go<'a>, awaited: Awaited, word: &'a [u8]) -> Result<Awaited, Memory>
    ensures { IfOk result (λ after. read_seen go.new after
        ≡ UciGo.filled (go_seen go.old) (awaited_seen awaited) word.now) }
{
    match awaited {
        Awaited::Nothing => Ok(Awaited::Nothing),
        Awaited::Number(key) => {
            set_number(go, key, word);
            Ok(Awaited::Nothing)
        }
        Awaited::Moves => {
            go.searchmoves.push(word)?;
            Ok(Awaited::Moves)
        }
    }
}

fn take_word<'a>(go: &mut Go<'a>, awaited: Awaited, word: &'a [u8]) -> Result<Awaited, Memory>
    ensures { IfOk result (λ after. read_seen go.new after
        ≡ go_read (UciGo.go_word word.now) (read_seen go.old awaited) word.now) }
{
    match go_word(word) {
        Some(GoWord::Takes(key)) => Ok(Awaited::Number(key)),
        Some(GoWord::Holds) => {
            go.holds = true;
            Ok(Awaited::Nothing)
        }
        Some(GoWord::SearchMoves) => {
            go.searchmoves.clear();
            Ok(Awaited::Moves)
        }
        None => fill(go, awaited, word),
    }
}

fn asks_nothing<'a>(alloc: Global) -> Go<'a>
    ensures { go_seen result ≡ UciGo.asks_nothing }
{
    Go {
        depth: None,
        nodes: None,
        mate: None,
        movetime: None,
        wtime: None,
        btime: None,
        winc: None,
        binc: None,
        movestogo: None,
        perft: None,
        holds: false,
        searchmoves: Vec::new(alloc),
    }
}

/// What the words after `go` ask. Of a limit that is named more than once the last readable one counts; a word that
/// cannot be read is skipped.
pub fn read_go<'a>(alloc: Global, words: &[&'a [u8]]) -> Result<Go<'a>, Memory>
    ensures { IfOk result (λ go. go_seen go ≡ go_of (texts words.now)) }
{
    let mut go = asks_nothing(alloc);
    let mut awaited = Awaited::Nothing;
    for word in words {
        awaited = take_word(&mut go, awaited, word)?;
    }
    Ok(go)
}
