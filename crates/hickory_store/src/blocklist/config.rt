//! How a list of blocked names is used.

use std::net::{Ipv4Addr, Ipv6Addr};

/// What a handler does when it is consulted about the answer of another handler of its chain.
#[derive(Clone, Copy, Debug, Default, PartialEq, Eq)]
pub enum BlocklistConsultAction {
    /// It gives the answer back.
    #[default]
    Disabled,
    /// For a blocked name it answers in the other handler's place.
    Enforce,
    /// It gives the answer back. There is nothing to log to, so this is the same as `Disabled`.
    Log,
}

/// How a list of blocked names is used.
#[derive(Drop, PartialEq, Eq)]
pub struct BlocklistConfig {
    /// Whether an entry `*.example.com.` blocks the names below `example.com.`.
    pub wildcard_match: bool,
    /// How many labels what follows `*.` must have at least for that, so that `*.com` does not block all of `com.`.
    pub min_wildcard_depth: u8,
    /// The address of blocked names, unless IPv6 is asked for; 0.0.0.0 where there is none.
    pub sinkhole_ipv4: Option<Ipv4Addr>,
    /// The address of blocked names where IPv6 is asked for; `::` where there is none.
    pub sinkhole_ipv6: Option<Ipv6Addr>,
    /// How long the answers may be kept, in seconds.
    pub ttl: u32,
    /// What is told in a TXT record of the answer, as one character string. Where it has more than 255 bytes, the
    /// answer has no written form (RFC 1035 section 3.3).
    pub block_message: Option<String>,
    /// What is done when the handler is consulted.
    pub consult_action: BlocklistConsultAction,
    /// It has no effect.
    pub log_clients: bool,
}

impl Default for BlocklistConfig {
    ghost use Rattle.std.specs.Prelude.{◌≡◌, true, None};
    ghost use Rattle.hickory_store.specs.declared.blocklist.config.BlocklistConsultAction.TheVariants.{Disabled};

    ghost is_default = { λ config. config ≡ record {
      wildcard_match = true;
      min_wildcard_depth = 2;
      sinkhole_ipv4 = None;
      sinkhole_ipv6 = None;
      ttl = 86400;
      block_message = None;
      consult_action = Disabled;
      log_clients = true;
    } };

    fn default() -> BlocklistConfig {
        BlocklistConfig {
            wildcard_match: true,
            min_wildcard_depth: 2,
            sinkhole_ipv4: None,
            sinkhole_ipv6: None,
            ttl: 86_400,
            block_message: None,
            consult_action: BlocklistConsultAction::Disabled,
            log_clients: true,
        }
    }
}
