//! The tables of a text, and the values at their keys.

use crate::keys::{AddressRow, DefaultRow, FlagRow, NetworkRow, NumberRow, TextRow};
use crate::network::Network;
use rad_config_fault::{ConfigFault, Key, Part, Spot};
use toml::{Table, Value};

/// A table of the text: an entry of a part or an attribute of its reply, whose index counts from 1, or the top with index 0.
#[derive(Clone, Copy)]
pub struct Entry<'a> {
    pub part: Part,
    pub index: u32,
    pub table: &'a Table,
}

impl<'a> Entry<'a> {
    ghost use Rattle.std.specs.Prelude.{◌≡◌, ◌||◌, IfOk, IfSome};
    ghost use Rattle.std.specs.Int.{IsInRange};
    ghost use Rattle.std.specs.Option.{option_copied};
    ghost use Rattle.rad_config.specs.Entries.{at_key, has_key, spot};
    ghost use Rattle.rad_config.specs.Networks.{IsNetwork};
    ghost use Rattle.rad_config.specs.Readers.{FoundIf, GivesValue, HasRowLength};
    ghost use Rattle.rad_config.specs.Views.{address_row, data_of, entry_data, flag_row, network_row, number_row};
    ghost use Rattle.rad_config.specs.Views.{optional_address_row, required_text_row, default_row, text_row, text_row_unless};

    /// Where a fault at a key is.
    pub fn spot(&self, key: Key) -> Spot
        ensures { result ≡ spot (entry_data self.now) key }
    {
        Spot {
            part: self.part,
            index: self.index,
            key,
        }
    }

    /// The value at a key.
    pub fn get(&self, key: Key) -> Option<&'a Value>
        ensures { data_of result ≡ at_key (entry_data self.now) key }
    {
        let table = self.table;
        table.get(key.name())
    }

    /// Whether there is a value at a key.
    pub fn has(&self, key: Key) -> bool
        ensures { result ≡ has_key (entry_data self.now) key }
    {
        self.get(key).is_some()
    }

    /// The number at a key that may be absent.
    #[tactic(auto, unfolding(crate::specs::Entries::value))]
    pub fn number(&self, row: &NumberRow) -> Result<Option<u32>, ConfigFault>
        ensures read { GivesValue (λ found. found) result self.now (number_row row.now) }
        ensures range { IfOk result (λ found. IfSome found (IsInRange row.now.least row.now.most)) }
    {
        let Some(value) = self.get(row.key) else {
            return Ok(None);
        };
        let number = row.fit(value).ok_or(self.bad(row.key))?;
        Ok(Some(number))
    }

    /// The number at a key, or its default.
    #[tactic(auto, unfolding(crate::specs::Entries::value))]
    pub fn number_or_default(&self, row: &DefaultRow) -> Result<u32, ConfigFault>
        requires { IsInRange row.now.number.least row.now.number.most row.now.default }
        ensures read { GivesValue (λ number. number) result self.now (default_row row.now) }
        ensures range { IfOk result (IsInRange row.now.number.least row.now.number.most) }
    {
        let number = self.number(&row.number)?;
        Ok(number.unwrap_or(row.default))
    }

    /// The flag at a key, or its default.
    #[tactic(auto, unfolding(crate::specs::Entries::value))]
    pub fn flag_or_default(&self, row: &FlagRow) -> Result<bool, ConfigFault>
        ensures { GivesValue (λ flag. flag) result self.now (flag_row row.now) }
    {
        let Some(value) = self.get(row.key) else {
            return Ok(row.default);
        };
        value.as_bool().ok_or(self.bad(row.key))
    }

    /// The address at a required key.
    #[tactic(auto, unfolding(crate::specs::Entries::value))]
    pub fn address(&self, row: &AddressRow) -> Result<u32, ConfigFault>
        ensures read { GivesValue (λ address. address) result self.now (address_row row.now) }
        ensures range { IfOk result (IsInRange row.now.least row.now.most) }
    {
        let value = self.get(row.key).ok_or(self.missing(row.key))?;
        row.fit(value).ok_or(self.bad(row.key))
    }

    /// The address at a key that may be absent.
    #[tactic(auto, unfolding(crate::specs::Entries::value))]
    pub fn address_if_any(&self, row: &AddressRow) -> Result<Option<u32>, ConfigFault>
        ensures read { GivesValue (λ found. found) result self.now (optional_address_row row.now) }
        ensures range { IfOk result (λ found. IfSome found (IsInRange row.now.least row.now.most)) }
    {
        let Some(value) = self.get(row.key) else {
            return Ok(None);
        };
        let address = row.fit(value).ok_or(self.bad(row.key))?;
        Ok(Some(address))
    }

    /// The network at a required key.
    #[tactic(auto, unfolding(crate::specs::Entries::value))]
    pub fn network(&self, row: &NetworkRow) -> Result<Network, ConfigFault>
        ensures read { GivesValue (λ network. network) result self.now (network_row row.now) }
        ensures fits { IfOk result IsNetwork }
    {
        let value = self.get(row.key).ok_or(self.missing(row.key))?;
        row.fit(value).ok_or(self.bad(row.key))
    }

    /// The octets of the text at a required key.
    #[tactic(auto, unfolding(crate::specs::Entries::value))]
    pub fn required_text(&self, row: &TextRow) -> Result<&'a [u8], ConfigFault>
        ensures read { GivesValue (λ text. text.now) result self.now (required_text_row row.now) }
        ensures range { IfOk result (HasRowLength row.now) }
    {
        let value = self.get(row.key).ok_or(self.missing(row.key))?;
        row.fit(value).ok_or(self.bad(row.key))
    }

    /// The octets of the text at a key that may be absent.
    #[tactic(auto, unfolding(crate::specs::Entries::value))]
    pub fn text(&self, row: &TextRow) -> Result<Option<&'a [u8]>, ConfigFault>
        ensures read { GivesValue option_copied result self.now (text_row row.now) }
        ensures range { IfOk result (λ found. IfSome found (HasRowLength row.now)) }
        ensures present { FoundIf result (has_key (entry_data self.now) row.now.key) }
    {
        let Some(value) = self.get(row.key) else {
            return Ok(None);
        };
        let text = row.fit(value).ok_or(self.bad(row.key))?;
        Ok(Some(text))
    }

    /// The octets of the text at a key that is required if it is needed.
    #[tactic(auto, unfolding(crate::specs::Entries::value))]
    pub fn text_unless(&self, needed: bool, row: &TextRow) -> Result<Option<&'a [u8]>, ConfigFault>
        ensures read { GivesValue option_copied result self.now (text_row_unless needed row.now) }
        ensures range { IfOk result (λ found. IfSome found (HasRowLength row.now)) }
        ensures present { FoundIf result (needed || has_key (entry_data self.now) row.now.key) }
    {
        if needed {
            Ok(Some(self.required_text(row)?))
        } else {
            self.text(row)
        }
    }

    /// The fault of a key whose value doesn't fit.
    pub fn bad(&self, key: Key) -> ConfigFault
        ensures { result ≡ ConfigFault.BadValue (spot (entry_data self.now) key) }
    {
        ConfigFault::BadValue(self.spot(key))
    }

    /// The fault of a required key that is absent.
    pub fn missing(&self, key: Key) -> ConfigFault
        ensures { result ≡ ConfigFault.Missing (spot (entry_data self.now) key) }
    {
        ConfigFault::Missing(self.spot(key))
    }
}
