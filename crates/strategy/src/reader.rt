//! Reads a text line by line.
ghost use Rattle.std.specs.Prelude.{◌≡◌, Err, Ok, true, option_map};
ghost use Rattle.io_ports.specs.Lines.{Text, TooLong};
ghost use Rattle.rules_model.specs.declared.rules.Rules.{Rules};
ghost use Rattle.rules_model.specs.Fit.{IsFit};
ghost use Rattle.rules_model.specs.Sound.{is_sound};
ghost use Rattle.move_text.specs.Read.{move_said};
ghost use Rattle.strategy.specs.Said.{attacker_said, count_said};
ghost use Rattle.strategy.specs.SaidView.{said_view};

use crate::StrategyFault;
use crate::header::{read_attacker, read_count};
use crate::nodes::{Edge, Edges, Node, Nodes, Strategy};
use crate::said::{SaidText, read_said};
use move_text::read_move;
use rules_model::{Move, Position, Rules, Side};
use smallvec::SmallVec;
use std::alloc::Global;
use variant_fen::read_fen;

/// The most bytes of a line.
const LONGEST_LINE: usize = 2048;

/// What the lines so far say. A text is read by `new`, `take_line` for each of its lines, and `finish`.
#[derive(Drop)]
pub struct Reader {
    /// The number of the next line, counted from 1.
    pub line: u64,
    pub attacker: Side,
    /// How many nodes the header announces; a number above 2^64 - 1 counts as that one.
    pub announced: u64,
    pub nodes: Nodes,
    /// Whether the end was said.
    pub is_ended: bool,
}

/// The move that a text names.
fn move_of(rules: &Rules, p: &Position, text: &[u8]) -> Option<Move>
    requires fit { IsFit rules.now }
    requires sound { is_sound rules.now p.now ≡ true }
    ensures { result ≡ move_said rules.now p.now text.now }
{
    read_move(rules, p, text)
}

impl Reader {
    ghost use Rattle.strategy.specs.Reading as Reading;

    /// Before the first line. Takes no memory.
    pub fn new(alloc: Global) -> Reader
        ensures { result ≡ Reading.begun }
    {
        Reader {
            line: 1,
            attacker: Side::White,
            announced: 0,
            nodes: Nodes {
                items: Vec::new(alloc),
            },
            is_ended: false,
        }
    }

    // ---- the header

    fn take_version(&mut self, text: &[u8]) -> Result<(), StrategyFault>
        ensures { Reading.Takes (Reading.with_version self.old text.now) self.old self.new result }
    {
        if text == b"strategy 1".as_slice() {
            Ok(())
        } else {
            Err(StrategyFault::Header(self.line))
        }
    }

    fn take_attacker(&mut self, text: &[u8]) -> Result<(), StrategyFault>
        ensures { Reading.Takes (Reading.with_attacker self.old (attacker_said text.now)) self.old self.new result }
    {
        let Some(side) = read_attacker(text) else {
            return Err(StrategyFault::Header(self.line));
        };
        self.attacker = side;
        Ok(())
    }

    fn take_count(&mut self, text: &[u8]) -> Result<(), StrategyFault>
        ensures { Reading.Takes (Reading.with_count self.old (count_said text.now)) self.old self.new result }
    {
        let Some(count) = read_count(text) else {
            return Err(StrategyFault::Header(self.line));
        };
        self.announced = count;
        Ok(())
    }

    // ---- nodes

    fn is_next(&self, number: u64, rank: u64) -> bool
        ensures { result ≡ Reading.is_next self.now number rank }
    {
        let nodes = &self.nodes;
        let count = nodes.len() as u64;
        number == count && count < self.announced && rank <= 65_535
    }

    fn push_node(&mut self, position: Position, rank: u16) -> Result<(), StrategyFault>
        ensures { Reading.Takes (Reading.with_position self.old rank (Ok position)) self.old self.new result }
    {
        let nodes = &mut self.nodes;
        let alloc = *nodes.items.allocator();
        let edges = Edges {
            items: SmallVec::new(alloc),
        };
        let position = Position {
            number: 1,
            ..position
        };
        nodes.push(Node {
            position,
            rank,
            edges,
        })?;
        Ok(())
    }

    #[tactic(auto, unfolding(crate::specs::Reading::with_node))]
    fn take_node(
        &mut self,
        rules: &Rules,
        number: u64,
        rank: u64,
        fen: &[u8],
    ) -> Result<(), StrategyFault>
        requires { IsFit rules.now }
        ensures { Reading.Takes (Reading.with_node rules.now self.old number rank fen.now) self.old self.new result }
    {
        if !self.is_next(number, rank) {
            return Err(StrategyFault::BadNumber(self.line));
        }
        match read_fen(rules, fen) {
            Err(why) => Err(StrategyFault::BadPosition(self.line, why)),
            Ok(position) => self.push_node(position, rank as u16),
        }
    }

    // ---- edges

    /// The edge, or the fault of its line.
    #[tactic(auto, unfolding(crate::specs::Reading::with_edge))]
    fn edge_of(&self, rules: &Rules, chosen: &[u8], to: u64) -> Result<Edge, StrategyFault>
        requires fit { IsFit rules.now }
        requires sound { Reading.AreSound rules.now self.now.nodes }
        ensures { Reading.GivesEdge (Reading.with_edge rules.now self.now chosen.now to) self.now result }
    {
        let nodes = &self.nodes;
        let Some(node) = nodes.last() else {
            return Err(StrategyFault::BadLine(self.line));
        };
        if to >= self.announced {
            return Err(StrategyFault::BadNumber(self.line));
        }
        match move_of(rules, &node.position, chosen) {
            None => Err(StrategyFault::BadMove(self.line)),
            Some(chosen) => Ok(Edge { chosen, to }),
        }
    }

    fn take_edge(&mut self, rules: &Rules, chosen: &[u8], to: u64) -> Result<(), StrategyFault>
        requires fit { IsFit rules.now }
        requires sound { Reading.AreSound rules.now self.old.nodes }
        ensures { Reading.Takes (Reading.with_edge rules.now self.old chosen.now to) self.old self.new result }
    {
        let edge = self.edge_of(rules, chosen, to)?;
        let nodes = &mut self.nodes;
        nodes.push_last_edge(edge)?;
        Ok(())
    }

    // ---- lines

    fn take_end(&mut self) -> Result<(), StrategyFault>
        ensures { Reading.Takes (Reading.with_end self.old) self.old self.new result }
    {
        let nodes = &self.nodes;
        if nodes.len() as u64 != self.announced {
            return Err(StrategyFault::BadNumber(self.line));
        }
        self.is_ended = true;
        Ok(())
    }

    #[tactic(auto, unfolding(crate::specs::Reading::with_said))]
    fn take_said(&mut self, rules: &Rules, said: Option<SaidText<'_>>) -> Result<(), StrategyFault>
        requires fit { IsFit rules.now }
        requires sound { Reading.AreSound rules.now self.old.nodes }
        ensures { let said = option_map said_view said.entry in
            Reading.Takes (Reading.with_said rules.now self.old said) self.old self.new result }
    {
        match said {
            None => Err(StrategyFault::BadLine(self.line)),
            Some(SaidText::Node { number, rank, fen }) => self.take_node(rules, number, rank, fen),
            Some(SaidText::Edge { chosen, to }) => self.take_edge(rules, chosen, to),
            Some(SaidText::End) => self.take_end(),
        }
    }

    fn long_fault(&self) -> StrategyFault
        ensures { result ≡ Reading.long_fault self.now }
    {
        if self.is_ended {
            StrategyFault::Ended(self.line)
        } else if self.line <= 3 {
            StrategyFault::Header(self.line)
        } else {
            StrategyFault::BadLine(self.line)
        }
    }

    /// The fault of a next line that is too long to be kept, whatever it says.
    pub fn fault_of_long_line(&self) -> StrategyFault
        ensures { (rules : Rules) → Reading.step rules self.now TooLong ≡ Err result }
    {
        self.long_fault()
    }

    #[tactic(auto, unfolding(crate::specs::Reading::with_text))]
    fn take_text(&mut self, rules: &Rules, text: &[u8]) -> Result<(), StrategyFault>
        requires fit { IsFit rules.now }
        requires sound { Reading.AreSound rules.now self.old.nodes }
        ensures { Reading.Takes (Reading.with_text rules.now self.old text.now) self.old self.new result }
    {
        // Read so that its range is known: a number above 2^64 - 1, which counts as that one, is not below it.
        let _announced = self.announced;
        if text.len() > LONGEST_LINE {
            return Err(self.long_fault());
        }
        if self.is_ended {
            return Err(StrategyFault::Ended(self.line));
        }
        if self.line == 1 {
            self.take_version(text)
        } else if self.line == 2 {
            self.take_attacker(text)
        } else if self.line == 3 {
            self.take_count(text)
        } else {
            self.take_said(rules, read_said(text))
        }
    }

    /// Takes the next line, without its end. After an error the reader is as before.
    ///
    /// `Memory` is also the answer at line 2^64 - 1.
    #[tactic(auto, unfolding(crate::specs::Reading::step))]
    pub fn take_line(&mut self, rules: &Rules, text: &[u8]) -> Result<(), StrategyFault>
        requires fit { IsFit rules.now }
        requires sound { Reading.AreSound rules.now self.old.nodes }
        ensures takes { Reading.Takes (Reading.step rules.now self.old (Text text.now)) self.old self.new result }
        ensures sound { Reading.AreSound rules.now self.new.nodes }
    {
        if self.line == u64::MAX {
            return Err(StrategyFault::Memory);
        }
        self.take_text(rules, text)?;
        self.line += 1;
        Ok(())
    }

    /// The strategy of the lines so far, where they are those of a whole text.
    pub fn finish(self) -> Result<Strategy, StrategyFault>
        ensures { result ≡ Reading.finished self }
    {
        if !self.is_ended {
            return Err(StrategyFault::Ended(self.line));
        }
        Ok(Strategy {
            attacker: self.attacker,
            nodes: self.nodes,
        })
    }
}
