// Unit tests of the libraries that know no network: numbers, texts, files, single elements, the generator. Worked values,
// corners of inputs, and calls compared with the same work written plainly, for what the cases of the top call don't
// reach. `fd_tests` has those of the libraries above.
//
// Each module has the tests of the library that it is named for; `checks` has what they assert, and `contributions` the
// ends of elements.
#![tactic(auto)]

#[cfg(test)]
mod arith;
#[cfg(test)]
mod bounds;
#[cfg(test)]
mod cap;
#[cfg(test)]
mod checks;
#[cfg(test)]
mod contributions;
#[cfg(test)]
mod derived;
#[cfg(test)]
mod generator;
#[cfg(test)]
mod inverse;
#[cfg(test)]
mod lexer;
#[cfg(test)]
mod mat;
#[cfg(test)]
mod outside;
#[cfg(test)]
mod shape;
#[cfg(test)]
mod slope;
#[cfg(test)]
mod source;
#[cfg(test)]
mod substitution;
#[cfg(test)]
mod xfmr;
