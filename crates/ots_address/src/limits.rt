//! The limits of calendar addresses.

/// The most addresses of a list. The limit is this project's.
pub const MAX_CALENDARS: usize = 16;

/// The most bytes of a host: as many characters as a domain name has in text (RFC 1035, section
/// 2.3.4: 255 octets with the lengths of its labels).
pub const MAX_HOST: usize = 253;

/// The port of an http address that names none (RFC 9110, section 4.2.1).
pub const DEFAULT_PORT: u16 = 80;
