//! Tests of the sinks of `piece_moves`.
use crate::expect::expect_eq;
use piece_moves::MoveSink;
use rules_model::{Kind, Move, MoveList, Square};

fn drop_to(to: u8) -> Move {
    Move::Drop {
        kind: Kind(1),
        to: Square(to),
    }
}

/// Gives the sink two moves.
fn give_two<S: MoveSink>(out: &mut S) -> Result<(), S::Full> {
    for to in 0..2 {
        out.take(drop_to(to))?;
    }
    Ok(())
}

#[test]
fn a_list_takes_moves_in_their_order(rt: HostRuntime) {
    let mut list = MoveList {
        items: Vec::new(rt.alloc()),
    };
    give_two(&mut list).expect(&rt, "no fault");
    expect_eq(
        &rt,
        list.items.as_slice(),
        [drop_to(0), drop_to(1)].as_slice(),
    );
}
