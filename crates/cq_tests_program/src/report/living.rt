//! Lines that are answered on and on while an allocation fails.

use crate::devices::Pieces;
use cq_devices::Counted;
use cq_refusing::{ENOUGH, Refusing};
use cq_report::{Numbering, live};
use std::alloc::{Allocator, Global};
use std::io::{self, ErrorKind, Write};

const LINES: &[u8] =
    b"relation T 1\ninsert T(1)\npost a {} R(x) <- T(x)\npublish\ncheckpoint\nshow\ncount\nquit\n";

/// How many texts of answers there are.
const TEXTS: usize = 6;

/// The answers if no allocation fails, and if one does at the first line, the second, the third, the checkpoint and the look. `publish`, `count` and `quit` take
/// no memory.
const ANSWERS: [&[u8]; TEXTS] = [
    b"ok\nok 1\nok 2\npublished 2\ncheckpoint 2\nshow 2\nrelation T 1 rows 1\nquery a matched
  text {} R(x) <- T(x)\n  groundings 1 (x)\n    (1)\nend\nqueries 1 matched 1 waiting 0 rows 1 entries 2 unpublished 0 since 0 relations 1 limits 1000 100000\n",
    b"refused Memory\nrefused UnknownRelation 0\nrefused UnknownRelation 0\npublished 0\ncheckpoint 0\nshow 0\nend\nqueries 0 matched 0 waiting 0 rows 0 entries 0 unpublished 0 since 0 relations 0 limits 1000 100000\n",
    b"ok\nrefused Memory\nok 1\npublished 1\ncheckpoint 1\nshow 1\nrelation T 1 rows 0\nquery a waiting
  text {} R(x) <- T(x)\n  groundings 0 (x)\nend\nqueries 1 matched 0 waiting 1 rows 0 entries 1 unpublished 0 since 0 relations 1 limits 1000 100000\n",
    b"ok\nok 1\nrefused Memory\npublished 1\ncheckpoint 1\nshow 1\nrelation T 1 rows 1\nend\nqueries 0 matched 0 waiting 0 rows 1 entries 1 unpublished 0 since 0 relations 1 limits 1000 100000\n",
    b"ok\nok 1\nok 2\npublished 2\nrefused Memory\nshow 2\nrelation T 1 rows 1\nquery a matched
  text {} R(x) <- T(x)\n  groundings 1 (x)\n    (1)\nend\nqueries 1 matched 1 waiting 0 rows 1 entries 2 unpublished 0 since 2 relations 1 limits 1000 100000\n",
    b"ok\nok 1\nok 2\npublished 2\ncheckpoint 2\nrefused Memory\nqueries 1 matched 1 waiting 0 rows 1 entries 2 unpublished 0 since 0 relations 1 limits 1000 100000\n",
];

/// The same as JSON objects.
const OBJECTS: [&[u8]; TEXTS] = [
    b"{\"line\":1,\"ok\":true}\n{\"line\":2,\"ok\":1}\n{\"line\":3,\"ok\":2}\n{\"line\":4,\"published\":2}\n{\"line\":5,\"checkpoint\":2}\n{\"line\":6,\"board\":{\"entries\":2,\"relations\":[{\"name\":\"T\",\"arity\":1,\"rows\":1}],\"queries\":[{\"name\":\"a\",\"state\":\"matched\",\"text\":\"{} R(x) <- T(x)\",\"heads\":[{\"relation\":\"R\",\"terms\":[{\"variable\":\"x\"}]}],\"postconditions\":[],\"body\":[{\"relation\":\"T\",\"terms\":[{\"variable\":\"x\"}]}],\"variables\":[\"x\"],\"groundings\":[[1]]}]}}\n{\"line\":7,\"count\":{\"queries\":1,\"matched\":1,\"waiting\":0,\"rows\":1,\"entries\":2,\"unpublished\":0,\"since\":0,\"relations\":1,\"pool_limit\":1000,\"journal_limit\":100000}}\n{\"line\":8,\"quit\":true}\n",
    b"{\"line\":1,\"refused\":\"Memory\"}\n{\"line\":2,\"refused\":\"UnknownRelation\",\"place\":0}\n{\"line\":3,\"refused\":\"UnknownRelation\",\"place\":0}\n{\"line\":4,\"published\":0}\n{\"line\":5,\"checkpoint\":0}\n{\"line\":6,\"board\":{\"entries\":0,\"relations\":[],\"queries\":[]}}\n{\"line\":7,\"count\":{\"queries\":0,\"matched\":0,\"waiting\":0,\"rows\":0,\"entries\":0,\"unpublished\":0,\"since\":0,\"relations\":0,\"pool_limit\":1000,\"journal_limit\":100000}}\n{\"line\":8,\"quit\":true}\n",
    b"{\"line\":1,\"ok\":true}\n{\"line\":2,\"refused\":\"Memory\"}\n{\"line\":3,\"ok\":1}\n{\"line\":4,\"published\":1}\n{\"line\":5,\"checkpoint\":1}\n{\"line\":6,\"board\":{\"entries\":1,\"relations\":[{\"name\":\"T\",\"arity\":1,\"rows\":0}],\"queries\":[{\"name\":\"a\",\"state\":\"waiting\",\"text\":\"{} R(x) <- T(x)\",\"heads\":[{\"relation\":\"R\",\"terms\":[{\"variable\":\"x\"}]}],\"postconditions\":[],\"body\":[{\"relation\":\"T\",\"terms\":[{\"variable\":\"x\"}]}],\"variables\":[\"x\"],\"groundings\":[]}]}}\n{\"line\":7,\"count\":{\"queries\":1,\"matched\":0,\"waiting\":1,\"rows\":0,\"entries\":1,\"unpublished\":0,\"since\":0,\"relations\":1,\"pool_limit\":1000,\"journal_limit\":100000}}\n{\"line\":8,\"quit\":true}\n",
    b"{\"line\":1,\"ok\":true}\n{\"line\":2,\"ok\":1}\n{\"line\":3,\"refused\":\"Memory\"}\n{\"line\":4,\"published\":1}\n{\"line\":5,\"checkpoint\":1}\n{\"line\":6,\"board\":{\"entries\":1,\"relations\":[{\"name\":\"T\",\"arity\":1,\"rows\":1}],\"queries\":[]}}\n{\"line\":7,\"count\":{\"queries\":0,\"matched\":0,\"waiting\":0,\"rows\":1,\"entries\":1,\"unpublished\":0,\"since\":0,\"relations\":1,\"pool_limit\":1000,\"journal_limit\":100000}}\n{\"line\":8,\"quit\":true}\n",
    b"{\"line\":1,\"ok\":true}\n{\"line\":2,\"ok\":1}\n{\"line\":3,\"ok\":2}\n{\"line\":4,\"published\":2}\n{\"line\":5,\"refused\":\"Memory\"}\n{\"line\":6,\"board\":{\"entries\":2,\"relations\":[{\"name\":\"T\",\"arity\":1,\"rows\":1}],\"queries\":[{\"name\":\"a\",\"state\":\"matched\",\"text\":\"{} R(x) <- T(x)\",\"heads\":[{\"relation\":\"R\",\"terms\":[{\"variable\":\"x\"}]}],\"postconditions\":[],\"body\":[{\"relation\":\"T\",\"terms\":[{\"variable\":\"x\"}]}],\"variables\":[\"x\"],\"groundings\":[[1]]}]}}\n{\"line\":7,\"count\":{\"queries\":1,\"matched\":1,\"waiting\":0,\"rows\":1,\"entries\":2,\"unpublished\":0,\"since\":2,\"relations\":1,\"pool_limit\":1000,\"journal_limit\":100000}}\n{\"line\":8,\"quit\":true}\n",
    b"{\"line\":1,\"ok\":true}\n{\"line\":2,\"ok\":1}\n{\"line\":3,\"ok\":2}\n{\"line\":4,\"published\":2}\n{\"line\":5,\"checkpoint\":2}\n{\"line\":6,\"refused\":\"Memory\"}\n{\"line\":7,\"count\":{\"queries\":1,\"matched\":1,\"waiting\":0,\"rows\":1,\"entries\":2,\"unpublished\":0,\"since\":0,\"relations\":1,\"pool_limit\":1000,\"journal_limit\":100000}}\n{\"line\":8,\"quit\":true}\n",
];

/// Takes the bytes of any of the texts, and fails at others. It takes no memory.
#[derive(Drop)]
struct AnyOf {
    rests: [Option<&'static [u8]>; TEXTS],
}

impl AnyOf {
    fn new(texts: [&'static [u8]; TEXTS]) -> AnyOf {
        let mut rests = [None; TEXTS];
        for text in 0..TEXTS {
            rests[text] = Some(texts[text]);
        }
        AnyOf { rests }
    }

    /// The text that was written whole.
    fn whole(&self) -> Option<usize> {
        self.rests.iter().position(|rest| *rest == Some(b""))
    }
}

/// What is left of a text after these bytes, where it begins with them.
fn behind(text: Option<&'static [u8]>, bytes: &[u8]) -> Option<&'static [u8]> {
    let rest = text?;
    let (front, rest) = rest.split_at_checked(bytes.len())?;
    if front == bytes { Some(rest) } else { None }
}

impl Write for AnyOf {
    fn write(&mut self, buf: &[u8]) -> io::Result<usize> {
        let mut is_any = false;
        for text in 0..TEXTS {
            self.rests[text] = behind(self.rests[text], buf);
            is_any = is_any || self.rests[text].is_some();
        }
        if is_any {
            Ok(buf.len())
        } else {
            Err(ErrorKind::WriteZero.into())
        }
    }

    fn flush(&mut self) -> io::Result<()> {
        Ok(())
    }
}

/// Which of the texts the lines are answered with, read in pieces of so many bytes; none if there was no memory to begin with, or they are answered otherwise.
fn answered<A: Allocator + Copy>(
    alloc: A,
    numbering: Numbering,
    most: usize,
    texts: [&'static [u8]; TEXTS],
) -> Option<usize> {
    let mut reader = Counted::new(Pieces { rest: LINES, most });
    let mut writer = Counted::new(AnyOf::new(texts));
    match live(alloc, numbering, 0, &mut reader, &mut writer) {
        Ok(()) => writer.into_inner().whole(),
        Err(_) => None,
    }
}

/// Which of the texts are met while each allocation is refused in turn, but for the first two, without which nothing begins.
fn met(
    alloc: Global,
    numbering: Numbering,
    most: usize,
    texts: [&'static [u8]; TEXTS],
) -> Option<[bool; TEXTS]> {
    let mut met = [false; TEXTS];
    for left in 2..ENOUGH {
        let heap = Refusing::new(alloc, left);
        let text = answered(&heap, numbering, most, texts)?;
        if text < TEXTS {
            met[text] = true;
        }
        if !heap.has_refused() {
            return Some(met);
        }
    }
    None
}

// A failed allocation is answered, and changes nothing: the lines after it are answered as if its line had not been. It is the same however the
// lines are cut by reads.
#[test]
fn failed_allocation_in_live(rt: HostRuntime) {
    let heap = rt.alloc();
    for most in [1, 7, LINES.len()] {
        assert!(rt; met(heap, Numbering::Plain, most, ANSWERS) == Some([true; TEXTS]));
        assert!(rt; met(heap, Numbering::Json, most, OBJECTS) == Some([true; TEXTS]));
    }
    for left in 0..2 {
        assert!(rt; answered(&Refusing::new(heap, left), Numbering::Json, 7, OBJECTS).is_none());
    }
}
