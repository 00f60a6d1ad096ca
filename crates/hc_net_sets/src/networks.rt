//! The addresses of a network, as automata.
ghost use Rattle.std.specs.Prelude.{◌≡◌, ◌<◌, ◌||◌, IfOk};
ghost use Rattle.hc_addr.specs.declared.addr.Addr.TheVariants.{V4, V6};
ghost use Rattle.hc_dfa.specs.Automata.{accepts};
ghost use Rattle.hc_dfa.specs.Built.{Accepts};
ghost use Rattle.hc_net_sets.specs.Networks.{in_network};
ghost use Rattle.hc_net_sets.specs.Rows.{gapped_texts, whole_texts};
ghost use Rattle.hc_net_sets.specs.Unions.{six};

use crate::marks::{Mark, behind_number};
use crate::sought::{Family, GROUPS, Sought};
use hc_addr::{Addr, Net};
use hc_base::NoMemory;
use hc_dfa::{Dfa, Keep, product, reduce, tested};
use std::alloc::Global;

/// Addresses with all their numbers.
fn whole(alloc: Global, sought: &Sought) -> Result<Dfa, NoMemory>
    requires { sought.now.behind < GROUPS }
    ensures { IfOk result (λ made. Accepts made (whole_texts sought.now)) }
{
    let first = behind_number(sought, sought.family.count());
    let made = tested(alloc, sought, first)?;
    Ok(made)
}

/// IPv6 addresses with `::` and so many groups behind it.
fn gapped(alloc: Global, own: u128, mask: u128, behind: u32) -> Result<Dfa, NoMemory>
    requires { behind < GROUPS }
    ensures { IfOk result (λ made. Accepts made (gapped_texts (six own mask behind))) }
{
    let sought = Sought {
        family: Family::Six,
        own,
        mask,
        behind,
    };
    let made = tested(alloc, &sought, Mark::Start)?;
    Ok(made)
}

/// The addresses of a set, and those with so many groups behind `::`.
fn with_gap(alloc: Global, set: &Dfa, own: u128, mask: u128, behind: u32) -> Result<Dfa, NoMemory>
    requires { behind < GROUPS }
    ensures { IfOk result (λ made.
        Accepts made (λ text. accepts set.now text || gapped_texts (six own mask behind) text)) }
{
    let gapped = gapped(alloc, own, mask, behind)?;
    let both = product(alloc, set, &gapped, Keep::Either)?;
    let made = reduce(alloc, &both)?;
    Ok(made)
}

/// The addresses of an IPv6 network.
fn six_addresses(alloc: Global, own: u128, mask: u128) -> Result<Dfa, NoMemory>
    ensures { IfOk result (λ made. Accepts made (in_network (record { addr = V6 own; mask = mask }))) }
{
    let sought = Sought {
        family: Family::Six,
        own,
        mask,
        behind: 0,
    };
    let mut made = whole(alloc, &sought)?;
    for behind in 0..GROUPS {
        made = with_gap(alloc, &made, own, mask, behind)?;
    }
    Ok(made)
}

/// The addresses of an IPv4 network.
fn four_addresses(alloc: Global, own: u32, mask: u128) -> Result<Dfa, NoMemory>
    ensures { IfOk result (λ made. Accepts made (in_network (record { addr = V4 own; mask = mask }))) }
{
    let sought = Sought {
        family: Family::Four,
        own: u128::from(own),
        mask,
        behind: 0,
    };
    let made = whole(alloc, &sought)?;
    Ok(made)
}

/// The texts that are an address of a network, each in every spelling (Apache manual, "Expressions in Apache HTTP
/// Server", -ipmatch; how an address is written is our own choice, see hc_addr).
pub fn addresses(alloc: Global, net: &Net) -> Result<Dfa, NoMemory>
    ensures { IfOk result (λ made. Accepts made (in_network net.now)) }
{
    match net.addr {
        Addr::V4(own) => four_addresses(alloc, own, net.mask),
        Addr::V6(own) => six_addresses(alloc, own, net.mask),
    }
}
