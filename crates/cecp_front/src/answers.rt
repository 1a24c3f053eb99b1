//! What the lines of a session set, and what they answer before the engine thinks.
ghost use Rattle.std.specs.Prelude.{◌≡◌, ◌<◌, ◌≤◌, [], IfOk, IfSome, OnErr, OnOk, length};
ghost use Rattle.cecp_front.specs.View.{command_seen, limit_seen};
ghost use Rattle.foundation.specs.Member.{Member};
ghost use Rattle.game_play.specs.Played.{legal_in, longer, shorter};
ghost use Rattle.game_text.specs.Playing.{most_plies, move_of};
ghost use Rattle.io_ports.specs.Lines as lines;
ghost use Rattle.io_ports.specs.Lines.{Text as TextLine};
ghost use Rattle.session_model.specs.CecpLines as CecpLines;
ghost use Rattle.session_model.specs.CecpSession.{answer_of};
ghost use Rattle.session_model.specs.CecpState as CecpState;
ghost use Rattle.session_model.specs.Mates.{mover};
ghost use Rattle.session_model.specs.Lines.{got_line};
ghost use Rattle.cecp_front.specs.Answers.{begun, is_known};

use crate::session::CecpSession;
use crate::texts::{error_line, feature_line, illegal_line, long_line, pong_line, result_line};
use crate::{Command, Limit, read_line};
use foundation::{Memory, Text};
use game_play::{Game, MOST_PLIES, PlayFault};
use io_ports::Got;
use legality::is_legal;
use move_text::read_move;
use rules_model::{Move, Outcome, Side};
use std::alloc::Global;
use variant_fen::read_fen;
use variant_rules::Found;

// No text.
fn silent(alloc: Global) -> Text
    ensures { result ≡ [] }
{
    Text {
        items: Vec::new(alloc),
    }
}

// Takes the last move back.
fn undo_one(game: &mut Game)
    requires { 0 < length game.old.moves }
    ensures { game.new ≡ shorter game.old }
{
    let _ = game.undo();
}

// Takes N plies back.
fn undo_plies(game: &mut Game, plies: u8)
    requires { plies ≤ length game.old.moves }
    ensures { game.new ≡ CecpState.without_last plies game.old }
{
    for _ply in 0..plies {
        undo_one(game);
    }
}

// `normal` is chess.
fn section_name(name: &[u8]) -> &[u8]
    ensures { result.now ≡ CecpState.section_name name.now }
{
    if name == b"normal".as_slice() {
        b"chess"
    } else {
        name
    }
}

impl CecpSession {
    // Begins a variant at its start, where it is there and accepted. Says whether it is.
    fn begin(&mut self, alloc: Global, name: &[u8]) -> Result<bool, Memory>
        ensures is { IfOk result (λ known. known ≡ is_known (CecpState.rules_named self.old name.now)) }
        ensures begun { IfOk result (λ known. self.new ≡ begun self.old (CecpState.rules_named self.old name.now)) }
        ensures same { OnErr result (self.new ≡ self.old) }
    {
        match self.variants.find(name) {
            Found::Rules(rules) => {
                self.game = Game::new(alloc, rules, &rules.start)?;
                self.is_over = false;
                Ok(true)
            }
            Found::Refused(_) | Found::Unknown => Ok(false),
        }
    }

    // `new`.
    fn renew(&mut self, alloc: Global) -> Result<Text, Memory>
        ensures { (line : lines.Line) → IfOk result (λ text. CecpState.says self.new text
            ≡ CecpState.answer_to self.old line CecpLines.New) }
    {
        self.game = self.chess.another(alloc, &self.chess.rules().start)?;
        self.is_over = false;
        self.plays = Some(Side::Black);
        self.sd = None;
        Ok(silent(alloc))
    }

    // `variant NAME`.
    fn set_variant(&mut self, alloc: Global, line: &[u8], name: &[u8]) -> Result<Text, Memory>
        ensures { IfOk result (λ text. CecpState.says self.new text
            ≡ CecpState.answer_to self.old (TextLine line.now) (CecpLines.Variant name.now)) }
    {
        if self.begin(alloc, section_name(name))? {
            Ok(silent(alloc))
        } else {
            error_line(alloc, b"unknown variant", line)
        }
    }

    // `setboard F`.
    fn set_board(&mut self, alloc: Global, line: &[u8], fen: &[u8]) -> Result<Text, Memory>
        ensures { IfOk result (λ text. CecpState.says self.new text
            ≡ CecpState.answer_to self.old (TextLine line.now) (CecpLines.SetBoard fen.now)) }
    {
        self.game.prove_played();
        let Ok(position) = read_fen(self.game.rules(), fen) else {
            return error_line(alloc, b"illegal position", line);
        };
        self.game = self.game.another(alloc, &position)?;
        self.is_over = false;
        Ok(silent(alloc))
    }

    // The legal move with this text.
    fn move_of(&self, text: &[u8]) -> Option<Move>
        ensures is { result ≡ move_of self.now.game text.now }
        ensures legal { IfSome result (λ m. Member m (legal_in self.now.game)) }
    {
        self.game.prove_played();
        let rules = self.game.rules();
        let position = self.game.position();
        let m = read_move(rules, position, text)?;
        if is_legal(rules, self.game.tables(), position, &m) {
            Some(m)
        } else {
            None
        }
    }

    // Plays a legal move, for which there is room.
    pub(crate) fn play(&mut self, m: &Move) -> Result<(), Memory>
        requires legal { Member m.now (legal_in self.old.game) }
        requires room { length self.old.game.moves < most_plies }
        ensures { OnOk result (self.new ≡ record self.old { game = longer self.old.game m.now }) }
    {
        match self.game.play(m) {
            Ok(()) => Ok(()),
            Err(PlayFault::Memory) => Err(Memory),
            Err(PlayFault::Illegal) | Err(PlayFault::TooLong) => unreachable!(),
        }
    }

    // `usermove M`.
    fn user_move(&mut self, alloc: Global, line: &[u8], text: &[u8]) -> Result<Text, Memory>
        ensures { IfOk result (λ answer. CecpState.says self.new answer
            ≡ CecpState.answer_to self.old (TextLine line.now) (CecpLines.UserMove text.now)) }
    {
        let Some(m) = self.move_of(text) else {
            return illegal_line(alloc, text);
        };
        if self.game.moves().len() >= MOST_PLIES {
            return error_line(alloc, b"too many moves", line);
        }
        self.play(&m)?;
        let outcome = self.close();
        result_line(alloc, outcome)
    }

    // How the game stands after a move, which may have ended it.
    pub(crate) fn close(&mut self) -> Outcome
        ensures outcome { result ≡ CecpState.result_of self.old.game }
        ensures closed { self.new ≡ CecpState.with_played self.old self.old.game }
    {
        let outcome = self.game.outcome();
        if outcome != Outcome::Ongoing {
            self.is_over = true;
        }
        outcome
    }

    // `undo` and `remove`: N plies back, or none.
    fn take_back(&mut self, alloc: Global, line: &[u8], plies: u8) -> Result<Text, Memory>
        ensures { IfOk result (λ text. CecpState.says self.new text
            ≡ CecpState.answer_to self.old (TextLine line.now) (CecpLines.TakeBack plies)) }
    {
        if self.game.moves().len() < usize::from(plies) {
            return error_line(alloc, b"nothing played", line);
        }
        undo_plies(&mut self.game, plies);
        self.is_over = false;
        Ok(silent(alloc))
    }

    // The side that is to move.
    pub(crate) fn mover(&self) -> Side
        ensures { result ≡ mover self.now.game }
    {
        self.game.position().side
    }

    fn set_limit(&mut self, limit: Limit)
        ensures { CecpState.silent self.new
            ≡ CecpState.answer_to self.old (TextLine []) (limit_seen limit) }
    {
        match limit {
            Limit::St(seconds) => self.st = Some(seconds),
            Limit::Sd(depth) => self.sd = Some(depth),
            Limit::Level { moves, increment } => self.level = Some((moves, increment)),
            Limit::Time(left) => self.time = Some(left),
        }
    }

    // Answers a command.
    fn answer(&mut self, alloc: Global, line: &[u8], command: &Command) -> Result<Text, Memory>
        ensures { IfOk result (λ text. CecpState.says self.new text
            ≡ CecpState.answer_to self.old (TextLine line.now) (command_seen command.now)) }
    {
        match command {
            Command::Idle | Command::Quit => Ok(silent(alloc)),
            Command::Protover => feature_line(alloc, &self.variants),
            Command::New => self.renew(alloc),
            Command::Variant(name) => self.set_variant(alloc, line, name),
            Command::Force => {
                self.plays = None;
                Ok(silent(alloc))
            }
            Command::Go => {
                self.plays = Some(self.mover());
                Ok(silent(alloc))
            }
            Command::PlayOther => {
                self.plays = Some(self.mover().other());
                Ok(silent(alloc))
            }
            Command::UserMove(text) => self.user_move(alloc, line, text),
            Command::SetBoard(fen) => self.set_board(alloc, line, fen.items.as_slice()),
            Command::Ping(digits) => pong_line(alloc, digits),
            Command::TakeBack(plies) => self.take_back(alloc, line, *plies),
            Command::Post(on) => {
                self.posts = *on;
                Ok(silent(alloc))
            }
            Command::Limit(limit) => {
                self.set_limit(*limit);
                Ok(silent(alloc))
            }
            Command::BadNumber => error_line(alloc, b"bad number", line),
            Command::Unknown => error_line(alloc, b"unknown command", line),
            Command::TooLong => long_line(alloc),
        }
    }

    /// Answers the line that was taken, before the engine thinks: what it says, and an empty text where it says
    /// nothing.
    pub(crate) fn answer_line(
        &mut self,
        alloc: Global,
        next: Got,
        line: &[u8],
    ) -> Result<Text, Memory>
        ensures { IfOk result (λ text. CecpState.says self.new text
            ≡ answer_of self.old (got_line next line.now)) }
    {
        match next {
            Got::Line => {
                let command = read_line(alloc, Got::Line, line)?;
                self.answer(alloc, line, &command)
            }
            Got::TooLong | Got::End | Got::Failed => long_line(alloc),
        }
    }
}
