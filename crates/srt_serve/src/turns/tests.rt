//! What tests of other modules need.

use super::Turn;

/// Gives up a turn.
pub fn give_up(turn: Turn) {
    let Turn { due: () } = turn;
}
