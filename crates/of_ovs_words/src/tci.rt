//! The two bytes of a VLAN tag in a match.
ghost use Rattle.std.specs.Prelude.{◌≡◌};
ghost use Rattle.of_ovs_words.specs.Tci.{pcp_setting as pcp_of, tci_mask as mask_of, tci_settings as settings_of};

use crate::numbers::numbered;
use crate::setting::masked;
use crate::why::Why;
use of_layers::Field;
use of_lines::cut;
use of_oxm::MatchField;

fn tci_mask(word: &[u8]) -> Result<u128, Why>
    ensures { result ≡ mask_of word.now }
{
    if word.is_empty() {
        Ok(0xffff)
    } else {
        numbered(0x1_0000, word)
    }
}

// All of the priority of a tag that is asked for, or nothing; nothing where there is no tag.
fn pcp_setting(value: u128, mask: u128) -> Result<Option<MatchField>, Why>
    ensures { result ≡ pcp_of value mask }
{
    if mask & 0xe000 == 0 {
        Ok(None)
    } else if mask & 0x1000 == 0 {
        Err(Why::Value)
    } else if value & 0x1000 == 0 {
        Ok(None)
    } else if mask & 0xe000 == 0xe000 {
        Ok(Some(MatchField {
            field: Field::VlanPcp,
            value: value / 8192,
            mask: None,
        }))
    } else {
        Err(Why::Value)
    }
}

/// What `vlan_tci` says of VLAN_VID, and of VLAN_PCP.
#[tactic(auto, unfolding(crate::specs::Tci::tci_settings))]
pub fn tci_settings(word: &[u8]) -> Result<(Option<MatchField>, Option<MatchField>), Why>
    ensures { result ≡ settings_of word.now }
{
    let (value, mask) = cut(word, b'/');
    let value = numbered(0x1_0000, value)?;
    let mask = tci_mask(mask)?;
    let pcp = pcp_setting(value, mask)?;
    Ok((masked(Field::VlanVid, value & 0x1fff, mask), pcp))
}
