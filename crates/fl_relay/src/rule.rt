//! The rule of a relay, and what each of its atomic steps changes.

use crossbeam_channel::protocol::{Join, Lesson, Outcome, Protocol, Split};
use fl_graph::Piece;
use std::collections::LinkedList;

/// What a pass knows: whether it may give and take, and what it has given and taken. It is for contracts alone: no value of it is made.
pub struct View {
    pub gives: bool,
    pub takes: bool,
    pub given: LinkedList<Piece>,
    pub taken: LinkedList<Piece>,
}

/// The rule of a relay.
pub struct InOrder;

impl Protocol<Piece, View> for InOrder {
    ghost use Rattle.std.specs.Prelude.{[]};
    ghost use Rattle.fl_relay.specs.Rule.{Relayed, whole};

    ghost holds = { Relayed };

    ghost first = { whole [] [] };
}

/// The two halves of a relay: one pass gives and one takes.
pub(crate) struct Halves;

impl Split<View> for Halves {
    ghost use Rattle.fl_relay.specs.Rule.{giving, taking};

    ghost left = { λ view. giving view.given };

    ghost right = { λ view. taking view.taken };
}

impl Join<View> for Halves {
    ghost use Rattle.fl_relay.specs.Rule.{whole, spent};

    ghost both = { λ giver taker. whole giver.given taker.taken };

    ghost spent = { spent };
}

/// A send: the giver has given one piece more. One that is refused, since the relay is full, changes no view.
pub(crate) struct Sends;

impl Outcome<Piece, View> for Sends {
    ghost use Rattle.std.specs.Prelude.{◌≡◌};
    ghost use Rattle.fl_relay.specs.Rule.{sent};

    ghost then = { λ view piece now. now ≡ sent view piece };
}

impl Lesson<Piece, View> for Sends {
    ghost use Rattle.std.specs.Prelude.{⊤};

    ghost fact = { λ view waiting. ⊤ };
}

/// A receive: the taker has taken one piece more. One that is refused, since the relay is empty, changes no view.
pub(crate) struct Receives;

impl Outcome<Piece, View> for Receives {
    ghost use Rattle.std.specs.Prelude.{◌≡◌};
    ghost use Rattle.fl_relay.specs.Rule.{received};

    ghost then = { λ view piece now. now ≡ received view piece };
}

impl Lesson<Piece, View> for Receives {
    ghost use Rattle.std.specs.Prelude.{⊤};

    ghost fact = { λ view waiting. ⊤ };
}

/// What a pass that may give and take learns: what waits in the relay is what it has given and not taken, and nothing follows what closes.
pub(crate) struct Balance;

impl Lesson<Piece, View> for Balance {
    ghost use Rattle.fl_relay.specs.Rule.{Balances};

    ghost fact = { λ view waiting. Balances view.given view.taken waiting };
}
