use reading::machine_sheet::Frame;
use std::fmt;

/// What any machine's text begins with.
#[derive(Clone, Copy)]
pub(crate) struct FrameWords(pub Frame);

impl fmt::Display for FrameWords {
    fn fmt<W: fmt::Write>(&self, f: &mut fmt::Formatter<W>) -> fmt::Result {
        let Frame {
            states,
            own,
            partner,
            start,
        } = self.0;
        writeln!(
            f,
            "states           {states:>4}\n\
             own signals      {own:>4}\n\
             partner signals  {partner:>4}\n\
             start            {start:>4}"
        )
    }
}
