//! Lists of moves that are still to be searched.
ghost use Rattle.std.specs.Prelude.{◌≡◌, ◌<◌, ◌≤◌, length, vec_len};
ghost use Rattle.negamax.specs.Trials.{Pushes, Takes};

use rules_model::Move;

/// A move, and how soon it is to be searched: that of the greatest score first.
#[derive(Clone, Copy)]
pub(crate) struct ScoredMove {
    pub chosen: Move,
    pub score: u32,
}

/// The place of the greatest score after the first N.
fn best_place(list: &[ScoredMove], first: usize) -> usize
    requires { first < length list.now }
    ensures behind { first ≤ result }
    ensures within { result < length list.now }
{
    let mut best = first;
    for i in first..list.len() {
        if list[i].score > list[best].score {
            best = i;
        }
    }
    best
}

/// Takes the move of the greatest score from those after the first N.
pub(crate) fn take_best(list: &mut Vec<ScoredMove>, first: usize) -> Move
    requires { first < vec_len list.old }
    ensures takes { Takes first list.old.items list.new.items result }
    ensures shorter { vec_len list.new < vec_len list.old }
{
    let place = best_place(list.as_slice(), first);
    list.swap_remove(place).chosen
}
