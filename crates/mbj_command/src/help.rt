//! The end of the program's help: what a job file and a result line have, and the exit statuses. `man/mbjobs.1` says more.

pub(crate) const AFTER_HELP: &str = "\
A job file is read from standard input. A job is a line of fourteen fields with one space between them:
  1       cipher: null, cbc, ctr, gcm, ccm
  2       direction: enc, dec
  3       order: ch (cipher, then hash), hc (hash, then cipher)
  4       the cipher's key: bytes, or @N for the key of session N
  5       IV: 16 bytes for cbc, 12 or 16 for ctr, 1 to 65535 for gcm and gmac, and 7 to 13 for ccm
  6, 7    cipher range: where it begins in the packet, and its length in bytes
  8       authentication: null, hmac-sha1, hmac-sha224, hmac-sha256, hmac-sha384, hmac-sha512, sha1, sha224,
          sha256, sha384, sha512, cmac128, cmac256, gmac, gcm, ccm; HMAC from stored states: hmac-sha1-states,
          hmac-sha224-states, hmac-sha256-states, hmac-sha384-states, hmac-sha512-states
  9       the authentication's key: bytes; for an HMAC from stored states the inner state, then the outer state
  10      additional data of gcm and ccm: bytes
  11, 12  hash range: where it begins in the packet, and its length in bytes
  13      tag length in bytes
  14      packet: bytes
Bytes are hexadecimal digits, or - for none. A line `session KEY` gives the next session, from 0 on, its key.

A result line is `N ok PACKET TAG`, or `N invalid-args R` where the job is refused for the reason R:
  1 packet too long               2 authentication and cipher don't go together
  3 cipher key                    4 IV
  5 cipher range                  6 length of the cipher range
  7 authentication key            8 hash range
  9 additional data too long      10 tag length

Exit status:
  0 done          2 no command, or help       3 read failed       4 write failed
  5 bad line      6 file too long             7 out of memory

Example: mbjobs run --submitters 1 --workers 0 < jobs.txt";
