//! The later lines.
ghost use Rattle.std.specs.Prelude.{◌≡◌};
ghost use Rattle.std.specs.Option.{option_map};
ghost use Rattle.strategy.specs.Said.{said, node_said, edge_said};
ghost use Rattle.strategy.specs.SaidView.{said_view, said_capped};

use foundation::{cut_at, read_number};

/// What a line says. A number above 2^64 - 1 counts as that one.
#[derive(Clone, Copy)]
pub(crate) enum SaidText<'a> {
    Node {
        number: u64,
        rank: u64,
        fen: &'a [u8],
    },
    Edge {
        chosen: &'a [u8],
        to: u64,
    },
    End,
}

/// Reads `I RANK FEN`.
#[tactic(auto, unfolding(crate::specs::Said::node_said))]
fn read_node(text: &[u8]) -> Option<SaidText<'_>>
    ensures { option_map said_view result ≡ option_map said_capped (node_said text.now) }
{
    let (number, rest) = cut_at(text, b' ');
    let (rank, fen) = cut_at(rest?, b' ');
    let fen = fen?;
    let number = read_number(number)?;
    let rank = read_number(rank)?;
    Some(SaidText::Node { number, rank, fen })
}

/// Reads `MOVE TO`.
#[tactic(auto, unfolding(crate::specs::Said::edge_said))]
fn read_edge(text: &[u8]) -> Option<SaidText<'_>>
    ensures { option_map said_view result ≡ option_map said_capped (edge_said text.now) }
{
    let (chosen, to) = cut_at(text, b' ');
    let to = read_number(to?)?;
    Some(SaidText::Edge { chosen, to })
}

/// Reads a line after those of the header, where it has a form.
#[tactic(auto, unfolding(crate::specs::Said::said))]
pub(crate) fn read_said(text: &[u8]) -> Option<SaidText<'_>>
    ensures { option_map said_view result ≡ option_map said_capped (said text.now) }
{
    let (word, rest) = cut_at(text, b' ');
    match rest {
        None if word == b"end".as_slice() => Some(SaidText::End),
        None => None,
        Some(rest) if word == b"node".as_slice() => read_node(rest),
        Some(rest) if word == b"edge".as_slice() => read_edge(rest),
        Some(_) => None,
    }
}
