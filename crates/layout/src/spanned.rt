// Numbers whose contents and length were judged: the stretch of every entry lies within them.
ghost use Rattle.layout.specs.Contents.{Measured};

use crate::listed::Listed;

#[derive(Clone, Copy)]
pub struct Spanned<'a> {
    pub listed: Listed<'a>,
    pub ghost measured: { Measured listed.numbers.now },
}
