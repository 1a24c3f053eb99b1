//! What the options of a section say, by the kinds of their values.
ghost use Rattle.std.specs.Prelude.{◌≡◌, ◌≤◌, ◌<◌, None};
ghost use Rattle.variant_options.specs.declared.value.Listed.TheVariants.{Only};
ghost use Rattle.variant_options.specs.Letters.{mask_of};
ghost use Rattle.foundation.specs.Numbers.{number_within};
ghost use Rattle.variant_options.specs.Readings as Readings;
ghost use Rattle.variant_rules.specs.Said.{resolved_at, value_or};

use crate::resolved::Resolved;
use foundation::number_within;
use rules_model::{Kind, Value};
use variant_options::Listed;
use variant_options::readings::{
    read_file, read_flag, read_fold, read_letter, read_letters, read_letters_or_all, read_result,
    read_result_or_none,
};

impl Resolved<'_> {
    /// A switch.
    pub(crate) fn flag(&self, key: &[u8], default: bool) -> bool
        ensures { result ≡ value_or (resolved_at self.now) key.now Readings.read_flag default }
    {
        match self.value(key) {
            Some(text) => read_flag(text).unwrap_or(default),
            None => default,
        }
    }

    /// A number of the range.
    pub(crate) fn number(&self, key: &[u8], low: u16, high: u16, default: u16) -> u16
        ensures { result ≡ value_or (resolved_at self.now) key.now (number_within low high) default }
    {
        match self.value(key) {
            Some(text) => number_within(low, high, text).unwrap_or(default),
            None => default,
        }
    }

    /// A number of a range that ends below 256.
    pub(crate) fn small_number(&self, key: &[u8], low: u16, high: u16, default: u16) -> u8
        requires high { high < 256 }
        requires default { default ≤ high }
        ensures { result ≡ value_or (resolved_at self.now) key.now (number_within low high) default }
    {
        self.number(key, low, high, default).min(high) as u8
    }

    /// How often a position may stand.
    pub(crate) fn fold(&self, key: &[u8], default: u16) -> u16
        ensures { result ≡ value_or (resolved_at self.now) key.now Readings.read_fold default }
    {
        match self.value(key) {
            Some(text) => read_fold(text).unwrap_or(default),
            None => default,
        }
    }

    /// A file, counted from 0.
    pub(crate) fn file(&self, key: &[u8], default: u8) -> u8
        requires { default < 12 }
        ensures is { result ≡ value_or (resolved_at self.now) key.now Readings.read_file default }
        ensures below { result < 12 }
    {
        match self.value(key) {
            Some(text) => read_file(text).unwrap_or(default),
            None => default,
        }
    }

    /// What an end is worth.
    pub(crate) fn result(&self, key: &[u8], default: Value) -> Value
        ensures { result ≡ value_or (resolved_at self.now) key.now Readings.read_result default }
    {
        match self.value(key) {
            Some(text) => read_result(text).unwrap_or(default),
            None => default,
        }
    }

    /// What an end is worth that may be left out, as it is by default.
    pub(crate) fn result_or_none(&self, key: &[u8]) -> Option<Value>
        ensures { result ≡ value_or (resolved_at self.now) key.now Readings.read_result_or_none None }
    {
        match self.value(key) {
            Some(text) => read_result_or_none(text).unwrap_or(None),
            None => None,
        }
    }

    /// A letter; none by default.
    pub(crate) fn letter(&self, key: &[u8]) -> Option<Kind>
        ensures { result ≡ value_or (resolved_at self.now) key.now Readings.read_letter None }
    {
        match self.value(key) {
            Some(text) => read_letter(text).unwrap_or(None),
            None => None,
        }
    }

    /// Letters.
    pub(crate) fn letters_or(&self, key: &[u8], default: [bool; 26]) -> [bool; 26]
        ensures { result ≡ value_or (resolved_at self.now) key.now Readings.read_letters default }
    {
        match self.value(key) {
            Some(text) => read_letters(text).unwrap_or(default),
            None => default,
        }
    }

    /// Letters or all; none by default.
    pub(crate) fn letters_or_all(&self, key: &[u8]) -> Listed
        ensures { result ≡ value_or (resolved_at self.now) key.now Readings.read_letters_or_all (Only (mask_of None)) }
    {
        match self.value(key) {
            Some(text) => read_letters_or_all(text).unwrap_or(Listed::Only([false; 26])),
            None => Listed::Only([false; 26]),
        }
    }
}
