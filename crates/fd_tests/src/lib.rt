// Unit tests of the libraries that know a network or a circuit, for the public calls that take memory and that no case of
// `feeder_rows` reaches: each is called with ample memory, and what it gives is compared. Those of the libraries below stand
// in `fd_base_tests`.
//
// They stand in crates of their own, since a crate with tests is proved twice: as it is, and with its tests.
// Each module has the tests of the library that it is named for; `checks` has what they assert, and `circuits` makes small
// circuits.
#![tactic(auto)]

#[cfg(test)]
mod cert;
#[cfg(test)]
mod checks;
#[cfg(test)]
mod circuits;
#[cfg(test)]
mod equations;
#[cfg(test)]
mod levels;
#[cfg(test)]
mod network;
