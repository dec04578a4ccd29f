//! Values.
ghost use Rattle.std.specs.Prelude.{◌≡◌, ◌⊎◌, ◌<◌, ◌≤◌, ◌↔◌, length, IfOk, IfErr, IsErrOf};
ghost use Rattle.tx_types.specs.Stored.{stored_value};

use crate::fault::Fault;
use crate::limits::{MAX_INLINE_BYTES, MAX_VALUE_BYTES};
use crate::text::Text;
use std::alloc::Global;
use std::marker::Model;

/// A value of at most 65,536 bytes. A copy of a long one shares them. Contracts see the bytes.
#[derive(Clone, Debug, Drop, PartialEq, Eq)]
pub struct Value {
    text: Text,
}

impl Model for Value {
    ghost use Rattle.std.specs.Prelude.{List, ℕ, ◌≤◌, length};
    ghost use Rattle.tx_types.specs.declared.limits.TheConstants.{MAX_VALUE_BYTES};

    ghost Value = { List ℕ };

    ghost view = { λ v. v.text };

    ghost invariant = { λ v. length v.text ≤ MAX_VALUE_BYTES };

    ghost inverse = { λ bs. record { text = bs } };
}

impl Value {
    /// The value of these bytes. `ValueLength` where they are more than 65,536, `OutOfMemory` where
    /// there is no room for a copy of them.
    pub fn new(alloc: Global, bytes: &[u8]) -> Result<Value, Fault>
        ensures ok { IfOk result (λ value. value ≡ bytes.now) }
        ensures length { IsErrOf result Fault.ValueLength ↔ (MAX_VALUE_BYTES < length bytes.now) }
        ensures err { IfErr result (λ e. (e ≡ Fault.ValueLength) ⊎ (e ≡ Fault.OutOfMemory)) }
    {
        if bytes.len() > MAX_VALUE_BYTES {
            return Err(Fault::ValueLength);
        }
        let text = Text::new(alloc, bytes)?;
        Ok(Value { text })
    }

    /// Its bytes.
    pub fn as_bytes(&self) -> &[u8]
        ensures value { result.now ≡ self.now }
        ensures within { length result.now ≤ MAX_VALUE_BYTES }
    {
        self.text.as_slice()
    }

    /// A copy, which shares its bytes where they are many.
    pub fn clone(&self) -> Result<Value, Fault>
        ensures ok { IfOk result (λ copy. copy ≡ self.now) }
        ensures err { IfErr result (λ e. e ≡ Fault.OutOfMemory) }
    {
        Ok(Clone::clone(self)?)
    }

    /// What a record keeps of it: the value itself where it is short enough to stand inline.
    pub fn stored(&self) -> Result<StoredValue, Fault>
        ensures ok { IfOk result (λ stored. stored ≡ stored_value self.now) }
        ensures err { IfErr result (λ e. e ≡ Fault.OutOfMemory) }
    {
        if self.as_bytes().len() > MAX_INLINE_BYTES {
            return Ok(StoredValue::InDefault);
        }
        let value = self.clone()?;
        Ok(StoredValue::Inline(InlineValue { value }))
    }
}

/// A value of at most 255 bytes, short enough to stand inline in a record. Contracts see the bytes.
#[derive(Clone, Debug, Drop, PartialEq, Eq)]
pub struct InlineValue {
    value: Value,
}

impl Model for InlineValue {
    ghost use Rattle.std.specs.Prelude.{List, ℕ, ◌≤◌, length};
    ghost use Rattle.tx_types.specs.declared.limits.TheConstants.{MAX_INLINE_BYTES};

    ghost Value = { List ℕ };

    ghost view = { λ v. v.value };

    ghost invariant = { λ v. length v.value ≤ MAX_INLINE_BYTES };

    ghost inverse = { λ bs. record { value = bs } };
}

impl InlineValue {
    /// The value of these bytes. `ValueLength` where they are more than 255, `OutOfMemory` where
    /// there is no room for a copy of them.
    pub fn new(alloc: Global, bytes: &[u8]) -> Result<InlineValue, Fault>
        ensures ok { IfOk result (λ value. value ≡ bytes.now) }
        ensures length { IsErrOf result Fault.ValueLength ↔ (MAX_INLINE_BYTES < length bytes.now) }
        ensures err { IfErr result (λ e. (e ≡ Fault.ValueLength) ⊎ (e ≡ Fault.OutOfMemory)) }
    {
        if bytes.len() > MAX_INLINE_BYTES {
            return Err(Fault::ValueLength);
        }
        let value = Value::new(alloc, bytes)?;
        Ok(InlineValue { value })
    }

    /// The value.
    pub fn as_value(&self) -> &Value
        ensures value { result.now ≡ self.now }
        ensures within { length result.now ≤ MAX_INLINE_BYTES }
    {
        &self.value
    }
}

/// What a record keeps of the value that it puts.
#[derive(Clone, Debug, Drop, PartialEq, Eq)]
pub enum StoredValue {
    /// The value itself.
    Inline(InlineValue),
    /// The value is longer and stands in the `default` family, under the key and the start of
    /// its transaction.
    InDefault,
}
