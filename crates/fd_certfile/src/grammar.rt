// Laws of the grammar: functions without code, whose contracts are the laws.
ghost use Rattle.fd_certfile.specs.Examples.{SparseRows, BlockCases};
ghost use Rattle.fd_certfile.specs.Laws.{LineLaw, RowLaw, BlockLaw, TextLaw, CertificateLaw};

/// A line is read from its text, and from no other.
#[tactic(auto, using(crate::proofs::Laws::line_law))]
pub fn line_law()
    ensures { LineLaw }
{}

/// A row of an inverse has one form in each version.
#[tactic(auto, using(crate::proofs::Laws::row_law))]
pub fn row_law()
    ensures { RowLaw }
{}

/// A block has one list of lines in each version, and a refused line is the first with which no block begins.
#[tactic(auto, using(crate::proofs::Laws::block_law))]
pub fn block_law()
    ensures { BlockLaw }
{}

/// The bytes of a block are read as that block and as nothing else.
#[tactic(auto, using(crate::proofs::Written::text_law))]
pub fn text_law()
    ensures { TextLaw }
{}

/// Lines are those of exactly one certificate, and the text of a certificate is read as it in either version.
#[tactic(auto, using(crate::proofs::Certificates::certificate_law))]
pub fn certificate_law()
    ensures { CertificateLaw }
{}

/// Small cases of a row that has its entries with their places.
#[tactic(auto, using(crate::proofs::Laws::sparse_rows))]
pub fn sparse_rows()
    ensures { SparseRows }
{}

/// Small cases of a block.
#[tactic(auto, using(crate::proofs::Laws::block_cases))]
pub fn block_cases()
    ensures { BlockCases }
{}
