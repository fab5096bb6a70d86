// Fields, pairs and encrypted data keys, cut off the front of lent bytes.
ghost use Rattle.std.specs.Prelude.{◌≡◌};
ghost use Rattle.octets.specs.Cut.{cuts};
ghost use Rattle.format.specs.Request as Rq;
ghost use Rattle.format.specs.Reading.{cut_field};
ghost use Rattle.header.specs.Models.{pair, data_key};
ghost use Rattle.header_read.specs.Cuts.{cut_pair, cut_data_key};

use crate::entries::Kind;
use header::{EncryptedDataKey, Pair};
use octets::{cut, cut_number};

// Two bytes of length and so many bytes, and what comes after.
#[tactic(auto, using(octets::proofs::Cuts::number_some, octets::proofs::Cuts::number_none), unfolding(octets::specs::Cut::and_then))]
pub fn cut_field(bytes: &[u8]) -> Option<(&[u8], &[u8])>
    ensures value { cuts result ≡ cut_field bytes.now }
{
    let (len, rest) = cut_number::<u16, _>(bytes)?;
    cut(rest, len as usize)
}

// a pair of the encryption context
#[derive(Clone, Copy)]
pub struct PairKind;

impl<'m> Kind<'m> for PairKind {
    type Entry = Pair<'m, 'm>;

    ghost Value = { Rq.Pair };

    ghost says = { pair };

    ghost cut = { cut_pair };

    #[tactic(auto, unfolding(octets::specs::Cut::and_then))]
    fn cut_off(bytes: &'m [u8]) -> Option<(Pair<'m, 'm>, &'m [u8])> {
        let (name, more) = cut_field(bytes)?;
        let (value, rest) = cut_field(more)?;
        let pair = Pair { name, value };
        Some((pair, rest))
    }
}

// an encrypted data key
#[derive(Clone, Copy)]
pub struct DataKeyKind;

impl<'m> Kind<'m> for DataKeyKind {
    type Entry = EncryptedDataKey<'m, 'm, 'm>;

    ghost Value = { Rq.EncryptedDataKey };

    ghost says = { data_key };

    ghost cut = { cut_data_key };

    #[tactic(auto, unfolding(octets::specs::Cut::and_then))]
    fn cut_off(bytes: &'m [u8]) -> Option<(EncryptedDataKey<'m, 'm, 'm>, &'m [u8])> {
        let (provider_id, more) = cut_field(bytes)?;
        let (provider_info, more) = cut_field(more)?;
        let (ciphertext, rest) = cut_field(more)?;
        let key = EncryptedDataKey {
            provider_id,
            provider_info,
            ciphertext,
        };
        Some((key, rest))
    }
}
