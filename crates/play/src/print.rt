// Answers go to standard output, or into a digest.
use digest::Digest;
use scribe::STDOUT_FILENO;
use scribe::page::Page;
use std::convert::AsSlice;

// Without a digest, the answers go to standard output as they come.
#[derive(Clone, Copy)]
pub(crate) struct Sink {
    digest: Option<Digest>,
}

impl Sink {
    pub(crate) fn new(aloud: bool) -> Sink {
        Sink {
            digest: if aloud { None } else { Some(Digest::fresh()) },
        }
    }

    pub(crate) fn with(self, text: &[u8]) -> Sink {
        if self.digest.is_none() {
            io::write_all(STDOUT_FILENO, text);
        }
        Sink {
            digest: self.digest.map(|digest| digest.with(text)),
        }
    }

    // What is written on a page over this buffer.
    pub(crate) fn with_page<F: FnOnce(&mut Page)>(self, buffer: &mut [u8], write: F) -> Sink
        requires { F.IsAlwaysCallable write }
    {
        let mut out = Page::new(buffer, 0);
        write(&mut out);
        self.with(out.as_slice())
    }

    // What is left to print at the end.
    pub(crate) fn end(self) {
        if let Some(digest) = self.digest {
            digest.print();
        }
    }
}
