ghost use Rattle.std.specs.Prelude.{◌≡◌};
ghost use Rattle.std.specs.Arc.{arc_value};

use base_types::Body;
use std::marker::Model;
use std::sync::Arc;

/// A stored object that an event shares with the store and with those who got it. Contracts see its bytes.
#[derive(Drop)]
pub struct SharedBody {
    shared: Arc<Body>,
}

impl Model for SharedBody {
    ghost use Rattle.std.specs.Prelude.{List, ℕ};
    ghost use Rattle.std.specs.Arc.{arc_value};

    ghost Value = { List ℕ };

    ghost view = { λ b. arc_value b.shared };
}

impl SharedBody {
    /// Shares this body, and takes no memory.
    pub fn make(shared: Arc<Body>) -> SharedBody
        ensures { result ≡ arc_value shared }
    {
        SharedBody { shared }
    }

    /// The bytes, lent.
    pub fn bytes(&self) -> &[u8]
        ensures { result.now ≡ self.now }
    {
        self.shared.bytes()
    }
}
