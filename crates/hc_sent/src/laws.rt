//! What holds of where redirects lead, as the contract of a function that does nothing.
ghost use Rattle.hc_sent.specs.Making.{EachDirectedIsSent, EachRuledIsSent};
ghost use Rattle.hc_sent.specs.Reading.{AreLedOn, AreReadBack};

/// A location that is sent to an own server is read there as a path and a query of those that it leads to.
pub fn locations_are_read_back()
    ensures { AreReadBack }
{}

/// A location that is sent to an own server is, before bytes are escaped, one that leads there.
pub fn locations_lead_on()
    ensures { AreLedOn }
{}

/// The location of a rule is one of those that its parts may be sent as.
pub fn locations_of_rules_are_sent()
    ensures { EachRuledIsSent }
{}

/// So is the location of a redirect.
pub fn locations_of_redirects_are_sent()
    ensures { EachDirectedIsSent }
{}
