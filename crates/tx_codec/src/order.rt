//! The laws that a map from encoded keys or versions rests on.
ghost use Rattle.tx_codec.specs.Keys.{KeysKeepOrder, VersionsKeepOrder};

/// Encoded keys order as their keys.
pub fn key_order()
    ensures { KeysKeepOrder }
{}

/// Encoded versions order as their keys, and those of one key by falling timestamps.
pub fn version_order()
    ensures { VersionsKeepOrder }
{}
