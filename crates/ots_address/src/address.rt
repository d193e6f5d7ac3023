//! The address of a calendar.
ghost use Rattle.std.specs.Prelude.{◌≡◌};
ghost use Rattle.ots_address.specs.Address.{IsAddress};

use std::marker::Model;

/// The address of a calendar: `http://`, a host, and maybe a port.
///
/// Contracts see its text, its host and its port.
#[derive(Debug, Drop)]
pub struct Address {
    pub(crate) text: String,
    // how many bytes of the text after `http://` are the host
    pub(crate) host: usize,
    pub(crate) port: u16,
}

impl Model for Address {
    ghost use Rattle.std.specs.Prelude.{take, drop, string_bytes};
    ghost use Rattle.ots_address.specs.Address.{AddressParts, KeepsAddress};

    ghost Value = { AddressParts };

    ghost view = { λ a. record {
      text = string_bytes a.text;
      host = take a.host (drop 7 (string_bytes a.text));
      port = a.port;
    } };

    ghost invariant = { λ a. KeepsAddress (string_bytes a.text) a.host a.port };
}

impl Address {
    /// The whole text, as it stood in the list.
    pub fn text(&self) -> &str
        ensures text { result.now ≡ self.now.text }
        ensures parts { IsAddress self.now.text self.now.host self.now.port }
    {
        self.text.as_str()
    }

    /// The host, 1 to `MAX_HOST` bytes.
    pub fn host(&self) -> &str
        ensures host { result.now ≡ self.now.host }
        ensures parts { IsAddress self.now.text self.now.host self.now.port }
    {
        &self.text[SCHEME..SCHEME + self.host]
    }

    /// The port, from 1 on; 80 where the text names none.
    pub fn port(&self) -> u16
        ensures port { result ≡ self.now.port }
        ensures parts { IsAddress self.now.text self.now.host self.now.port }
    {
        self.port
    }
}

/// How many bytes `http://` has.
const SCHEME: usize = 7;
