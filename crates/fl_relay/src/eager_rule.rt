//! The rule of a relay, as the queue without bound asks for it.

use crate::rule::{Balance, InOrder, Receives, Sends, View};
use crossbeam_queue::protocol::{Lesson, Outcome, Protocol};
use fl_graph::Piece;

impl Protocol<Piece, View> for InOrder {
    ghost use Rattle.std.specs.Prelude.{[]};
    ghost use Rattle.fl_relay.specs.Rule.{Relayed, whole};

    ghost holds = { Relayed };

    ghost first = { whole [] [] };
}

impl Outcome<Piece, View> for Sends {
    ghost use Rattle.std.specs.Prelude.{◌≡◌};
    ghost use Rattle.fl_relay.specs.Rule.{sent};

    ghost then = { λ view piece now. now ≡ sent view piece };
}

impl Outcome<Piece, View> for Receives {
    ghost use Rattle.std.specs.Prelude.{◌≡◌};
    ghost use Rattle.fl_relay.specs.Rule.{received};

    ghost then = { λ view piece now. now ≡ received view piece };
}

impl Lesson<Piece, View> for Receives {
    ghost use Rattle.std.specs.Prelude.{⊤};

    ghost fact = { λ view waiting. ⊤ };
}

impl Lesson<Piece, View> for Balance {
    ghost use Rattle.fl_relay.specs.Rule.{Balances};

    ghost fact = { λ view waiting. Balances view.given view.taken waiting };
}
