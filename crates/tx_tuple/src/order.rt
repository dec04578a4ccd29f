//! The laws that keys of tuples rest on.
ghost use Rattle.tx_tuple.specs.Tuples.{TuplesKeepOrder, OneTuple, PrefixesAreTuples};

/// Keys are ordered as their tuples.
pub fn tuple_order()
    ensures { TuplesKeepOrder }
{}

/// No two tuples have one key.
pub fn one_tuple()
    ensures { OneTuple }
{}

/// The keys that begin with a tuple's are those of the tuples that begin with its parts.
pub fn prefixes()
    ensures { PrefixesAreTuples }
{}
