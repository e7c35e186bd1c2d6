//! Networks of one family as a trie of their bits, path-compressed (a PATRICIA tree): where no network ends and the
//! bits do not part there is no node, so a set of networks has fewer than two nodes for each of them.
//!
//! Prefixes grow on the way down, so no way is longer than an address has bits, and neither is a recursion: inserting,
//! dropping and printing go at most 129 nodes deep, whatever the networks are.

ghost use Rattle.std.specs.Prelude.{◌≡◌, ◌↔◌, ◌<◌, [], ◌∷◌, length, All, IsTrue, if◌then◌else◌, IfOk, OnOk, OnErr};
ghost use Rattle.server_limits.specs.Access.{IsLongestMatch, Inserts};
ghost use Rattle.server_limits.specs.Prefixes.{LiesIn};
ghost use Rattle.server_limits.specs.representation.Tries.{IsNode, networks_of};

use crate::access_control::{Address, IpNet};
use std::alloc::{AllocError, Global};
use std::marker::Model;
use std::mem;

/// A set of networks of one family.
#[cycle(trie)]
#[derive(Debug, Drop)]
pub(super) struct Trie {
    root: Option<Box<Node>>,
}

/// A place in the trie where a network ends or where bits part.
#[cycle(trie)]
#[derive(Debug, Drop)]
struct Node {
    /// What each network here and below begins with.
    prefix: IpNet,
    /// Whether the prefix is itself in the set.
    ends: bool,
    /// The networks that go on with a zero bit.
    zero: Trie,
    /// The networks that go on with a one bit.
    one: Trie,
}

impl Model for Trie {
    ghost use Rattle.std.specs.Prelude.{List, length};
    ghost use Rattle.server_limits.specs.Access.{Network};

    ghost Value = { List Network };

    ghost use Rattle.server_limits.specs.representation.Tries.{networks, IsTrie};

    ghost view = { λ t. networks t.root };

    ghost invariant = { λ t. IsTrie t.root };

    ghost size = { length };

    ghost use Rattle.server_limits.specs.representation.TriesFall.{size_falls};

    ghost size_decreases = { λ t h. size_falls t.root h };
}

impl Trie {
    pub(super) fn new() -> Trie
        ensures { result ≡ [] }
    {
        Trie { root: None }
    }

    /// The trie of one network.
    fn leaf(alloc: Global, network: IpNet) -> Result<Trie, AllocError>
        ensures { IfOk result (λ trie. trie ≡ network ∷ []) }
    {
        let node = Node {
            prefix: network,
            ends: true,
            zero: Trie::new(),
            one: Trie::new(),
        };
        Ok(Trie {
            root: Some(Box::new(alloc, node)?),
        })
    }

    /// The trie of what is left of the network where a node comes to stand at `common`: nothing where it is the
    /// network.
    fn beside(alloc: Global, network: IpNet, common: IpNet) -> Result<Trie, AllocError>
        ensures nothing { common ≡ network → IfOk result (λ trie. trie ≡ []) }
        ensures leaf { ¬ (common ≡ network) → IfOk result (λ trie. trie ≡ network ∷ []) }
    {
        if common == network {
            Ok(Trie::new())
        } else {
            Trie::leaf(alloc, network)
        }
    }

    pub(super) fn is_empty(&self) -> bool
        ensures { IsTrue result ↔ (self.now ≡ []) }
    {
        self.root.is_none()
    }

    /// Takes the network in, beside those that are there already. Where memory is refused the trie stays as it is.
    pub(super) fn insert(&mut self, alloc: Global, network: IpNet) -> Result<(), AllocError>
        requires one_family { All (λ other. other.family ≡ network.family) self.old }
        ensures ok { OnOk result (Inserts self.old (network ∷ []) self.new) }
        ensures err { OnErr result (self.new ≡ self.old) }
    {
        match &mut self.root {
            None => {
                *self = Trie::leaf(alloc, network)?;
                Ok(())
            }
            Some(node) => {
                if !node.prefix.contains(&network) {
                    return split(node, alloc, network);
                }
                if node.prefix.same(&network) {
                    node.ends = true;
                    return Ok(());
                }
                if network.bit(node.prefix.prefix_len()) {
                    node.one.insert(alloc, network)
                } else {
                    node.zero.insert(alloc, network)
                }
            }
        }
    }

    /// The greatest prefix length of the networks that match the address.
    /// Its callers know the family of the address, so that in their code the tests of it fall away.
    #[inline]
    pub(super) fn longest_match(&self, address: Address) -> Option<u8>
        ensures { IsLongestMatch self.now address result }
    {
        let mut longest = None;
        let mut trie = self;
        while let Some(node) = &trie.root {
            if node.ends && node.prefix.matches(address) {
                longest = Some(node.prefix.prefix_len());
            }
            trie = if address.bit(node.prefix.prefix_len()) {
                &node.one
            } else {
                &node.zero
            };
        }
        longest
    }
}

/// Takes a network in that does not lie in the node's prefix: a node for what the two begin with comes above this one.
fn split(node: &mut Box<Node>, alloc: Global, network: IpNet) -> Result<(), AllocError>
    requires node { IsNode node.old.value }
    requires one_family { node.old.value.prefix.family ≡ network.family }
    requires outside { ¬ (LiesIn network node.old.value.prefix) }
    ensures ok { OnOk result (Inserts (networks_of node.old.value) (network ∷ []) (networks_of node.new.value)) }
    ensures node { IsNode node.new.value }
    ensures err { OnErr result (node.new ≡ node.old) }
{
    let common = node.prefix.common(&network);
    let is_one = node.prefix.bit(common.prefix_len());
    let above = Node {
        prefix: common,
        ends: common.same(&network),
        zero: Trie::beside(alloc, network, common)?,
        one: Trie::new(),
    };
    let above = Box::new(alloc, above)?;
    let below = Trie {
        root: Some(mem::replace(node, above)),
    };
    attach(node, below, is_one);
    Ok(())
}

/// Puts a trie on one side of a node that has nothing on the side of ones, and what the node has on the other.
fn attach(node: &mut Node, below: Trie, is_one: bool)
    requires { node.old.one ≡ [] }
    ensures { node.new ≡ (if is_one then record node.old { one = below } else record node.old
        { zero = below; one = node.old.zero }) }
{
    if is_one {
        node.one = below;
    } else {
        node.one = mem::replace(&mut node.zero, below);
    }
}
