//! The command words of CECP.
ghost use Rattle.std.specs.Prelude.{◌≡◌, List};
ghost use Rattle.session_model.specs.CecpLines as CecpLines;
ghost use Rattle.session_model.specs.UciWords.{Word};
ghost use Rattle.cecp_front.specs.View.{command_by, limit_named, verb_gives_up, verb_quits};

/// What the first word of a line asks.
#[derive(Clone, Copy, PartialEq, Eq)]
pub(crate) enum Verb {
    /// A command that does nothing.
    Idle,
    Protover,
    New,
    Variant,
    Force,
    Go,
    PlayOther,
    UserMove,
    SetBoard,
    Ping,
    Undo,
    Remove,
    Post,
    NoPost,
    St,
    Sd,
    Level,
    Time,
    OpponentTime,
    Quit,
    Unknown,
}

impl Verb {
    /// Whether a search that the line of this verb stops makes no move.
    pub(crate) fn gives_up(self) -> bool
        ensures { result ≡ verb_gives_up self }
    {
        matches!(
            self,
            Verb::Quit
                | Verb::Force
                | Verb::New
                | Verb::Variant
                | Verb::SetBoard
                | Verb::Undo
                | Verb::Remove
        )
    }

    /// Whether the line of this verb ends a session.
    pub(crate) fn quits(self) -> bool
        ensures { result ≡ verb_quits self }
    {
        matches!(self, Verb::Quit)
    }
}

// Whether the word is one of the commands that do nothing.
fn is_idle(word: &[u8]) -> bool
    ensures { result ≡ CecpLines.is_among CecpLines.idle word.now }
{
    word == b"xboard".as_slice()
        || word == b"accepted".as_slice()
        || word == b"rejected".as_slice()
        || word == b"random".as_slice()
        || word == b"hard".as_slice()
        || word == b"easy".as_slice()
        || word == b"computer".as_slice()
        || word == b"name".as_slice()
        || word == b"rating".as_slice()
        || word == b"draw".as_slice()
        || word == b"?".as_slice()
}

// The word of a limit, of what is shown, or of the end.
fn read_limit(word: &[u8]) -> Verb
    ensures { (words : List Word) → command_by result words ≡ limit_named word.now words }
{
    if word == b"post".as_slice() {
        Verb::Post
    } else if word == b"nopost".as_slice() {
        Verb::NoPost
    } else if word == b"st".as_slice() {
        Verb::St
    } else if word == b"sd".as_slice() {
        Verb::Sd
    } else if word == b"level".as_slice() {
        Verb::Level
    } else if word == b"time".as_slice() {
        Verb::Time
    } else if word == b"otim".as_slice() {
        Verb::OpponentTime
    } else if word == b"quit".as_slice() {
        Verb::Quit
    } else {
        Verb::Unknown
    }
}

/// What a word asks as the first of a line.
pub(crate) fn read_verb(word: &[u8]) -> Verb
    ensures { (words : List Word) → command_by result words ≡ CecpLines.command_named word.now words }
{
    if is_idle(word) {
        Verb::Idle
    } else if word == b"protover".as_slice() {
        Verb::Protover
    } else if word == b"new".as_slice() {
        Verb::New
    } else if word == b"variant".as_slice() {
        Verb::Variant
    } else if word == b"force".as_slice() || word == b"result".as_slice() {
        Verb::Force
    } else if word == b"go".as_slice() {
        Verb::Go
    } else if word == b"playother".as_slice() {
        Verb::PlayOther
    } else if word == b"usermove".as_slice() {
        Verb::UserMove
    } else if word == b"setboard".as_slice() {
        Verb::SetBoard
    } else if word == b"ping".as_slice() {
        Verb::Ping
    } else if word == b"undo".as_slice() {
        Verb::Undo
    } else if word == b"remove".as_slice() {
        Verb::Remove
    } else {
        read_limit(word)
    }
}
