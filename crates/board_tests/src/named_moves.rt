//! Tests of the moves that texts name, of `move_text`.
use crate::expect::expect_of;
use move_text::{read_move, write_move};
use rules_model::{Move, Promo};
use sample_rules::shouse;

// Chess with gates and drops, from its start: White holds a hawk and an elephant, and all rights and gates.
#[test]
fn texts_name_moves_legal_or_not(rt: HostRuntime) {
    let rules = shouse();
    let named = [
        "e2e4", "e2e8", "b1c3h", "e1g1", "e1g1h", "h1e1h", "a2a3q", "a2a3qh", "E@f3",
    ];
    for text in named {
        match read_move(&rules, &rules.start, text.as_bytes()) {
            Some(m) => expect_of(
                &rt,
                &text,
                write_move(&m).items.as_slice() == text.as_bytes(),
            ),
            None => expect_of(&rt, &text, false),
        }
    }
    for text in [
        "", "e4e5", "e7e5", "b1c3+", "b1c3hh", "a2a3+", "e2", "e2e4x1", "e@f3", "E@f0", "e2m4",
    ] {
        expect_of(
            &rt,
            &text,
            read_move(&rules, &rules.start, text.as_bytes()).is_none(),
        );
    }
}

#[test]
fn castles_and_gates_are_told_apart(rt: HostRuntime) {
    let rules = shouse();
    for text in ["e1g1", "e1c1", "e1g1h", "h1e1e", "a1e1h"] {
        let m = read_move(&rules, &rules.start, text.as_bytes());
        expect_of(&rt, &text, matches!(m, Some(Move::Castle { .. })));
    }
    for text in ["e1f1", "h1e1", "e1g2"] {
        let m = read_move(&rules, &rules.start, text.as_bytes());
        let stays = matches!(
            m,
            Some(Move::Go {
                promo: Promo::Stays,
                gate: None,
                ..
            })
        );
        expect_of(&rt, &text, stays);
    }
}
