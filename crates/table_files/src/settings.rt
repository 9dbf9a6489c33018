ghost use Rattle.std.specs.Prelude.{◌≡◌, ◌≤◌, ◌+◌, ◌++◌, [], List, ℕ, IfOk, IfSome, length};
ghost use Rattle.csv_text.specs.Records.{AreRecordsOf, HasGiven};
ghost use Rattle.ops_tables.specs.Limits.{FitsSettings};
ghost use Rattle.table_files.specs.Filling.{Gives};
ghost use Rattle.table_files.specs.Settings as spec;

use crate::faults::{BadRecord, TableWhy};
use crate::fields::number_within;
use crate::reading::has_header;
use csv_text::Records;
use desk_io::{Listed, OutOfMemory, Text};
use ops_tables::Settings;
use std::alloc::Global;

/// A setting of the airline, one record of `settings.csv`.
#[derive(Clone, Copy, Debug)]
pub(crate) enum Setting {
    HoldMinutes,
    MarginalCeiling,
    SingleCeiling,
    DoubleCeiling,
    MarginalVis16,
    SingleVis16,
    DoubleVis16,
    LateOff,
    LateOn,
}

// The settings, in the order of their records.
const SETTINGS: [Setting; 9] = [
    Setting::HoldMinutes,
    Setting::MarginalCeiling,
    Setting::SingleCeiling,
    Setting::DoubleCeiling,
    Setting::MarginalVis16,
    Setting::SingleVis16,
    Setting::DoubleVis16,
    Setting::LateOff,
    Setting::LateOn,
];

impl Setting {
    fn name(self) -> &'static str
        ensures { result.now ≡ spec.name_of self }
    {
        match self {
            Setting::HoldMinutes => "hold_minutes",
            Setting::MarginalCeiling => "marginal_ceiling",
            Setting::SingleCeiling => "single_ceiling",
            Setting::DoubleCeiling => "double_ceiling",
            Setting::MarginalVis16 => "marginal_vis16",
            Setting::SingleVis16 => "single_vis16",
            Setting::DoubleVis16 => "double_vis16",
            Setting::LateOff => "late_off",
            Setting::LateOn => "late_on",
        }
    }

    // The largest value: minutes, feet, or sixteenths of a statute mile.
    fn most(self) -> u32
        ensures value { result ≡ spec.most_of self }
        ensures bound { result ≤ 1_000_000 }
    {
        match self {
            Setting::HoldMinutes | Setting::LateOff | Setting::LateOn => 1_440,
            Setting::MarginalCeiling | Setting::SingleCeiling | Setting::DoubleCeiling => 20_000,
            Setting::MarginalVis16 | Setting::SingleVis16 | Setting::DoubleVis16 => 160,
        }
    }
}

fn value_of(setting: Setting, fields: &[Text]) -> Option<u32>
    ensures value { result ≡ spec.value_of setting fields.now }
    ensures bound { IfSome result (λ n. n ≤ spec.most_of setting) }
{
    match fields {
        [name, value] if name.bytes() == setting.name().as_bytes() => {
            number_within(0, setting.most(), value.bytes())
        }
        _ => None,
    }
}

// Reads the value of the next record. Returns None if the record is bad or missing.
fn next_value(
    alloc: Global,
    reader: &mut Records,
    setting: Setting,
) -> Result<Option<u32>, OutOfMemory>
    ensures value { IfOk result (λ value. (text : List ℕ) → (earlier : List (List (List ℕ)))
        → HasGiven text earlier reader.old → spec.GivesValue text earlier setting value reader.new) }
    ensures bound { IfOk result (λ value. IfSome value (λ n. n ≤ spec.most_of setting)) }
{
    match reader.next(alloc, 3)? {
        None => Ok(None),
        Some(fields) => Ok(value_of(setting, fields.as_slice())),
    }
}

// Reports the record after these values as bad.
fn bad_after(values: &[u32], why: TableWhy) -> BadRecord
    requires { length values.now ≤ 9 }
    ensures { result ≡ record { line = length values.now + 2; why = why } }
{
    BadRecord {
        line: values.len() as u32 + 2,
        why,
    }
}

// Reads the records below the header, one for each setting.
fn read_values(
    alloc: Global,
    reader: &mut Records,
) -> Result<Result<Listed<u32>, BadRecord>, OutOfMemory>
    ensures value { IfOk result (λ values. (text : List ℕ) → (earlier : List (List (List ℕ)))
        → HasGiven text earlier reader.old → (others : List (List (List ℕ))) × AreRecordsOf text (earlier ++ others)
        × (spec.values_after [] spec.settings others ≡ values)) }
    ensures within { IfOk result (λ values. IfOk values
        (λ each. spec.AreWithin each spec.settings × (length each ≡ 9))) }
{
    let mut values = Listed::new(alloc);
    for setting in &SETTINGS {
        match next_value(alloc, reader, *setting)? {
            Some(value) => values.push(value)?,
            None => return Ok(Err(bad_after(values.as_slice(), TableWhy::BadField))),
        }
    }
    match reader.next(alloc, 0)? {
        None => Ok(Ok(values)),
        Some(_) => Ok(Err(bad_after(values.as_slice(), TableWhy::OverLimit))),
    }
}

fn settings_with(values: &[u32]) -> Result<Settings, BadRecord>
    requires { length values.now ≡ 9 }
    ensures value { result ≡ spec.settings_with values.now }
    ensures fits { spec.AreWithin values.now spec.settings → IfOk result FitsSettings }
{
    match values {
        [
            hold_minutes,
            marginal_ceiling,
            single_ceiling,
            double_ceiling,
            marginal_vis16,
            single_vis16,
            double_vis16,
            late_off,
            late_on,
        ] => Ok(Settings {
            hold_minutes: *hold_minutes,
            marginal_ceiling: *marginal_ceiling,
            single_ceiling: *single_ceiling,
            double_ceiling: *double_ceiling,
            marginal_vis16: *marginal_vis16,
            single_vis16: *single_vis16,
            double_vis16: *double_vis16,
            late_off: *late_off,
            late_on: *late_on,
        }),
        _ => Err(bad_after(values, TableWhy::BadField)),
    }
}

/// Reads `settings.csv`, header first, or returns the first bad record.
pub(crate) fn read_settings(
    alloc: Global,
    text: &[u8],
) -> Result<Result<Settings, BadRecord>, OutOfMemory>
    ensures value { IfOk result (λ settings. Gives text.now spec.settings_of settings) }
    ensures fits { IfOk result (λ settings. IfOk settings FitsSettings) }
{
    let mut reader = Records::of(text);
    if has_header(alloc, &mut reader, &["name", "value"])? {
        match read_values(alloc, &mut reader)? {
            Ok(values) => Ok(settings_with(values.as_slice())),
            Err(bad) => Ok(Err(bad)),
        }
    } else {
        Ok(Err(BadRecord {
            line: 1,
            why: TableWhy::BadField,
        }))
    }
}
