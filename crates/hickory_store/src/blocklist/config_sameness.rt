//! Laws of the comparisons of settings, each the contract of a function with nothing to do.

ghost use Rattle.std.specs.Prelude.{◌≡◌, ◌↔◌, IsTrue};
ghost use Rattle.hickory_store.specs.blocklist.ConfigSameness.{SameConfig};
ghost use Rattle.hickory_store.specs.declared.blocklist.config.BlocklistConfig.{BlocklistConfig as Settings};
ghost use Rattle.hickory_store.specs.declared.blocklist.config.BlocklistConsultAction.{BlocklistConsultAction as Action};

use crate::blocklist::config::{BlocklistConfig, BlocklistConsultAction};

/// `==` on what is done when a handler is consulted is true where it is the same of the three.
pub fn action_comparisons()
    ensures { (a b : Action) → IsTrue (⟦<BlocklistConsultAction as PartialEq>⟧.eq a b) ↔ (a ≡ b) }
{}

/// `==` on settings compares each field, and what is told byte by byte.
pub fn config_comparisons()
    ensures { (a b : Settings) → IsTrue (⟦<BlocklistConfig as PartialEq>⟧.eq a b) ↔ SameConfig a b }
{
    action_comparisons();
}
