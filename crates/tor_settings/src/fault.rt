/// Why a text gives no settings.
#[derive(Clone, Copy, Debug, PartialEq, Eq)]
pub enum SettingsFault {
    /// The number of the first rule that the text breaks, 1 to 11.
    Rule(u8),
    /// Memory is wanting.
    Memory,
}
