// The promise of the calls taken together. A program is what its calls say it is: four functions, of what it seals, what it reads
// with no key, what it opens, and what lent bytes hold after that. An implementation owes both that each call answers by these
// functions and that these functions are the format's.
ghost use Rattle.std.specs.Prelude.{◌≡◌, ℕ, List, length};
ghost use Rattle.std.proofs.Math.Path.{refl, ap};
ghost use Rattle.std.proofs.Common.{◌∙◌};
ghost use Rattle.format.specs.Request.{Request as Asked};
ghost use Rattle.format.specs.Reading.{ReadHeader as Seen, read_header};
ghost use Rattle.format.specs.Opening.{Opened as Outcome, open_message};
ghost use Rattle.format.specs.Promise.{Answer, seal_answer, Correct};
ghost use Rattle.header.specs.Models.{request_of};
ghost use Rattle.header_read.specs.Parts.{header_reads};
ghost use Rattle.opening.specs.Answer.{answer};
ghost use Rattle.strongbox.specs.Answers.{seal_told, sealed_into, SealKeeps, opened_into, left_in};
ghost use Rattle.strongbox.specs.Zeros.{left_zeros};

use crate::calls;
use header::{Request, SealRefusal};
use header_read::ReadHeader;
use opening::{OpenRefusal, Opened};

pub trait Program {
    ghost seals: { Asked → Answer };

    ghost reads: { List ℕ → List Seen };

    ghost opens: { List ℕ → List ℕ → Outcome };

    ghost leaves: { List ℕ → List ℕ → ℕ → List ℕ };

    fn seal(request: Request, out: &mut [u8]) -> Result<(), SealRefusal>
        ensures value { seal_told result out.new ≡ sealed_into (length out.old) (seals (request_of request.entry)) }
        ensures keeps { SealKeeps result out.old out.new };

    fn read_header(message: &[u8]) -> Option<ReadHeader<'_>>
        ensures value { header_reads result ≡ reads message.now };

    fn open<'m>(
        key: &[u8; 32],
        message: &'m [u8],
        out: &mut [u8],
    ) -> Result<Opened<'m>, OpenRefusal>
        ensures value { answer result out.new ≡ opened_into (length out.old) message.now (opens key.now message.now) }
        ensures left { out.new ≡ leaves key.now message.now (length out.old) };

    ghost correct: { Correct (record { seals = seals; reads = reads; opens = opens; leaves = leaves }) };
}

// The library.
#[derive(Drop)]
pub struct Strongbox;

impl Program for Strongbox {
    ghost seals = { seal_answer };

    ghost reads = { read_header };

    ghost opens = { open_message };

    ghost leaves = { λ k bs n. left_in n bs (open_message k bs) };

    ghost correct = { unfold Correct in (λ r w. refl, λ bs w. refl, λ k bs w l v. refl, λ k bs n a b w l v e. ap (λ answer. left_in n bs answer) e ∙ left_zeros n bs a b) };

    fn seal(request: Request, out: &mut [u8]) -> Result<(), SealRefusal> {
        calls::seal(request, out)
    }

    fn read_header(message: &[u8]) -> Option<ReadHeader<'_>> {
        calls::read_header(message)
    }

    fn open<'m>(
        key: &[u8; 32],
        message: &'m [u8],
        out: &mut [u8],
    ) -> Result<Opened<'m>, OpenRefusal> {
        calls::open(key, message, out)
    }
}
