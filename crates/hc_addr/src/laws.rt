//! Laws of the definitions in `specs/`, as the contracts of functions that do nothing.
ghost use Rattle.hc_addr.specs.declared.addr.Addr.{Addr};
ghost use Rattle.hc_addr.specs.Printed.{IsReadBack};

/// An address as it is printed is read back.
pub fn a_printed_address_is_read_back()
    ensures { (addr : Addr) → IsReadBack addr }
{}
