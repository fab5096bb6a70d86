// Texts in parts.
ghost use Rattle.std.specs.Prelude.{◌≡◌};
ghost use Rattle.std.specs.Option.{option_map};
ghost use Rattle.cli.specs.Split.{split_first, split_last, parts, split_data_key, data_key_parts};

// An encrypted data key as a word names it.
#[derive(Clone, Copy)]
pub struct DataKeyWord<'a> {
    pub provider_id: &'a str,
    pub provider_info: &'a str,
    // where its bytes are
    pub file: &'a str,
}

// NAME=VALUE, at the first '='.
pub fn split_pair(text: &str) -> Option<(&str, &str)>
    ensures value { option_map parts result ≡ split_first 61 text.now }
{
    text.split_once('=')
}

// PROVIDER_ID:PROVIDER_INFO:FILE, at the first and the last colon, since the info may have some.
pub fn split_data_key(text: &str) -> Option<DataKeyWord<'_>>
    ensures value { option_map data_key_parts result ≡ split_data_key text.now }
{
    let (provider_id, rest) = text.split_once(':')?;
    let (provider_info, file) = rest.rsplit_once(':')?;
    Some(DataKeyWord {
        provider_id,
        provider_info,
        file,
    })
}
