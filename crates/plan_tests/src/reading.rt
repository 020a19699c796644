// What plan texts say, and why they are refused.
use inspection::class::PerClass;
use inspection::refusal::{Notice, Place, Refusal};
use inspection::status::Status;
use plan_texts::reading::{PlanError, read_plan, replace_plan};
use plans::plan_book::PlanBook;
use plans::rows::{ClassNumbers, LimitRow, LotRow};
use std::alloc::Global;
use std::test::Fail;

// A text with one thing wrong, the number of its refusal, and the line that is named, if any.
struct Wrong {
    what: &'static str,
    text: &'static [u8],
    number: u8,
    line: Option<usize>,
}

const GOOD: &[u8] =
    b"L\tN\t10\t2\t5\t0\t3\t3\t1\t3\t4\t5\t7\t8\nL\tN\t20\t2\t5\t0\t3\t3\t1\t3\t4\t5\t7\t8\nL\tT\t10\t2\t5\t0\t3\t3\t1\t3\t4\t5\t7\t8\nL\tR\t10\t2\t5\t0\t3\t3\t1\t3\t4\t5\t7\t8\nM\t10\t0\t1\t2\nM\t20\t0\t1\t2\n";

const WRONG: [Wrong; 45] = [
    Wrong {
        what: "an empty text",
        text: b"",
        number: 54,
        line: None,
    },
    Wrong {
        what: "no line feed at the end",
        text: b"L\tN\t10\t2\t5\t0\t3\t3\t1\t3\t4\t5\t7\t8\nL\tN\t20\t2\t5\t0\t3\t3\t1\t3\t4\t5\t7\t8\nL\tT\t10\t2\t5\t0\t3\t3\t1\t3\t4\t5\t7\t8\nL\tR\t10\t2\t5\t0\t3\t3\t1\t3\t4\t5\t7\t8\nM\t10\t0\t1\t2\nM\t20\t0\t1\t2",
        number: 51,
        line: Some(6),
    },
    Wrong {
        what: "one more line feed",
        text: b"L\tN\t10\t2\t5\t0\t3\t3\t1\t3\t4\t5\t7\t8\nL\tN\t20\t2\t5\t0\t3\t3\t1\t3\t4\t5\t7\t8\nL\tT\t10\t2\t5\t0\t3\t3\t1\t3\t4\t5\t7\t8\nL\tR\t10\t2\t5\t0\t3\t3\t1\t3\t4\t5\t7\t8\nM\t10\t0\t1\t2\nM\t20\t0\t1\t2\n\n",
        number: 51,
        line: Some(7),
    },
    Wrong {
        what: "a carriage return",
        text: b"L\tN\t10\t2\t5\t0\t3\t3\t1\t3\t4\t5\t7\t8\nL\tN\t20\t2\t5\t0\t3\t3\t1\t3\t4\t5\t7\t8\nL\tT\t10\t2\t5\t0\t3\t3\t1\t3\t4\t5\t7\t8\nL\tR\t10\t2\t5\t0\t3\t3\t1\t3\t4\t5\t7\t8\nM\t10\t0\t1\t2\nM\t20\t0\t1\t2\r\n",
        number: 51,
        line: Some(6),
    },
    Wrong {
        what: "another kind",
        text: b"K\tN\t10\t2\t5\t0\t3\t3\t1\t3\t4\t5\t7\t8\nL\tN\t20\t2\t5\t0\t3\t3\t1\t3\t4\t5\t7\t8\nL\tT\t10\t2\t5\t0\t3\t3\t1\t3\t4\t5\t7\t8\nL\tR\t10\t2\t5\t0\t3\t3\t1\t3\t4\t5\t7\t8\nM\t10\t0\t1\t2\nM\t20\t0\t1\t2\n",
        number: 51,
        line: Some(1),
    },
    Wrong {
        what: "a small letter",
        text: b"l\tN\t10\t2\t5\t0\t3\t3\t1\t3\t4\t5\t7\t8\nL\tN\t20\t2\t5\t0\t3\t3\t1\t3\t4\t5\t7\t8\nL\tT\t10\t2\t5\t0\t3\t3\t1\t3\t4\t5\t7\t8\nL\tR\t10\t2\t5\t0\t3\t3\t1\t3\t4\t5\t7\t8\nM\t10\t0\t1\t2\nM\t20\t0\t1\t2\n",
        number: 51,
        line: Some(1),
    },
    Wrong {
        what: "another status",
        text: b"L\tN\t10\t2\t5\t0\t3\t3\t1\t3\t4\t5\t7\t8\nL\tA\t20\t2\t5\t0\t3\t3\t1\t3\t4\t5\t7\t8\nL\tT\t10\t2\t5\t0\t3\t3\t1\t3\t4\t5\t7\t8\nL\tR\t10\t2\t5\t0\t3\t3\t1\t3\t4\t5\t7\t8\nM\t10\t0\t1\t2\nM\t20\t0\t1\t2\n",
        number: 51,
        line: Some(2),
    },
    Wrong {
        what: "a field too few",
        text: b"L\tN\t10\t2\t5\t0\t3\t3\t1\t3\t4\t5\t7\t8\nL\tN\t20\t2\t5\t0\t3\t3\t1\t3\t4\t5\t7\t8\nL\tT\t10\t2\t5\t0\t3\t3\t1\t3\t4\t5\t7\nL\tR\t10\t2\t5\t0\t3\t3\t1\t3\t4\t5\t7\t8\nM\t10\t0\t1\t2\nM\t20\t0\t1\t2\n",
        number: 51,
        line: Some(3),
    },
    Wrong {
        what: "a field too many",
        text: b"L\tN\t10\t2\t5\t0\t3\t3\t1\t3\t4\t5\t7\t8\nL\tN\t20\t2\t5\t0\t3\t3\t1\t3\t4\t5\t7\t8\nL\tT\t10\t2\t5\t0\t3\t3\t1\t3\t4\t5\t7\t8\t9\nL\tR\t10\t2\t5\t0\t3\t3\t1\t3\t4\t5\t7\t8\nM\t10\t0\t1\t2\nM\t20\t0\t1\t2\n",
        number: 51,
        line: Some(3),
    },
    Wrong {
        what: "a leading zero",
        text: b"L\tN\t10\t2\t5\t0\t3\t3\t1\t3\t4\t5\t7\t8\nL\tN\t20\t2\t5\t0\t3\t3\t1\t3\t4\t5\t7\t8\nL\tT\t10\t2\t5\t0\t3\t3\t1\t3\t4\t5\t7\t8\nL\tR\t010\t2\t5\t0\t3\t3\t1\t3\t4\t5\t7\t8\nM\t10\t0\t1\t2\nM\t20\t0\t1\t2\n",
        number: 51,
        line: Some(4),
    },
    Wrong {
        what: "an empty field",
        text: b"L\tN\t10\t2\t5\t0\t3\t3\t1\t3\t4\t5\t7\t8\nL\tN\t20\t2\t5\t0\t3\t3\t1\t3\t4\t5\t7\t8\nL\tT\t10\t2\t5\t0\t3\t3\t1\t3\t4\t5\t7\t8\nL\tR\t\t2\t5\t0\t3\t3\t1\t3\t4\t5\t7\t8\nM\t10\t0\t1\t2\nM\t20\t0\t1\t2\n",
        number: 51,
        line: Some(4),
    },
    Wrong {
        what: "a sign",
        text: b"L\tN\t10\t2\t5\t0\t3\t3\t1\t3\t4\t5\t7\t8\nL\tN\t20\t2\t5\t0\t3\t3\t1\t3\t4\t5\t7\t8\nL\tT\t10\t2\t5\t0\t3\t3\t1\t3\t4\t5\t7\t8\nL\tR\t+10\t2\t5\t0\t3\t3\t1\t3\t4\t5\t7\t8\nM\t10\t0\t1\t2\nM\t20\t0\t1\t2\n",
        number: 51,
        line: Some(4),
    },
    Wrong {
        what: "a limit too few",
        text: b"L\tN\t10\t2\t5\t0\t3\t3\t1\t3\t4\t5\t7\t8\nL\tN\t20\t2\t5\t0\t3\t3\t1\t3\t4\t5\t7\t8\nL\tT\t10\t2\t5\t0\t3\t3\t1\t3\t4\t5\t7\t8\nL\tR\t10\t2\t5\t0\t3\t3\t1\t3\t4\t5\t7\t8\nM\t10\t0\t1\nM\t20\t0\t1\t2\n",
        number: 51,
        line: Some(5),
    },
    Wrong {
        what: "a limit too many",
        text: b"L\tN\t10\t2\t5\t0\t3\t3\t1\t3\t4\t5\t7\t8\nL\tN\t20\t2\t5\t0\t3\t3\t1\t3\t4\t5\t7\t8\nL\tT\t10\t2\t5\t0\t3\t3\t1\t3\t4\t5\t7\t8\nL\tR\t10\t2\t5\t0\t3\t3\t1\t3\t4\t5\t7\t8\nM\t10\t0\t1\t2\t3\nM\t20\t0\t1\t2\n",
        number: 51,
        line: Some(5),
    },
    Wrong {
        what: "no kind",
        text: b"L\tN\t10\t2\t5\t0\t3\t3\t1\t3\t4\t5\t7\t8\nL\tN\t20\t2\t5\t0\t3\t3\t1\t3\t4\t5\t7\t8\nL\tT\t10\t2\t5\t0\t3\t3\t1\t3\t4\t5\t7\t8\nL\tR\t10\t2\t5\t0\t3\t3\t1\t3\t4\t5\t7\t8\n\t10\t0\t1\t2\nM\t20\t0\t1\t2\n",
        number: 51,
        line: Some(5),
    },
    Wrong {
        what: "two blanks for a tab",
        text: b"L\tN\t10\t2\t5\t0\t3\t3\t1\t3\t4\t5\t7\t8\nL\tN\t20\t2\t5\t0\t3\t3\t1\t3\t4\t5\t7\t8\nL\tT\t10\t2\t5\t0\t3\t3\t1\t3\t4\t5\t7\t8\nL\tR\t10\t2\t5\t0\t3\t3\t1\t3\t4\t5\t7\t8\nM  10\t0\t1\t2\nM\t20\t0\t1\t2\n",
        number: 51,
        line: Some(5),
    },
    Wrong {
        what: "no first sample",
        text: b"L\tN\t10\t0\t5\t0\t3\t3\t1\t3\t4\t5\t7\t8\nL\tN\t20\t2\t5\t0\t3\t3\t1\t3\t4\t5\t7\t8\nL\tT\t10\t2\t5\t0\t3\t3\t1\t3\t4\t5\t7\t8\nL\tR\t10\t2\t5\t0\t3\t3\t1\t3\t4\t5\t7\t8\nM\t10\t0\t1\t2\nM\t20\t0\t1\t2\n",
        number: 52,
        line: Some(1),
    },
    Wrong {
        what: "a first sample above the total",
        text: b"L\tN\t10\t6\t5\t0\t3\t3\t1\t3\t4\t5\t7\t8\nL\tN\t20\t2\t5\t0\t3\t3\t1\t3\t4\t5\t7\t8\nL\tT\t10\t2\t5\t0\t3\t3\t1\t3\t4\t5\t7\t8\nL\tR\t10\t2\t5\t0\t3\t3\t1\t3\t4\t5\t7\t8\nM\t10\t0\t1\t2\nM\t20\t0\t1\t2\n",
        number: 52,
        line: Some(1),
    },
    Wrong {
        what: "a total sample above the lowest size",
        text: b"L\tN\t4\t2\t5\t0\t3\t3\t1\t3\t4\t5\t7\t8\nL\tN\t20\t2\t5\t0\t3\t3\t1\t3\t4\t5\t7\t8\nL\tT\t10\t2\t5\t0\t3\t3\t1\t3\t4\t5\t7\t8\nL\tR\t10\t2\t5\t0\t3\t3\t1\t3\t4\t5\t7\t8\nM\t10\t0\t1\t2\nM\t20\t0\t1\t2\n",
        number: 52,
        line: Some(1),
    },
    Wrong {
        what: "a total sample above 2,000",
        text: b"L\tN\t10\t2\t5\t0\t3\t3\t1\t3\t4\t5\t7\t8\nL\tN\t9000\t2\t2001\t0\t3\t3\t1\t3\t4\t5\t7\t8\nL\tT\t10\t2\t5\t0\t3\t3\t1\t3\t4\t5\t7\t8\nL\tR\t10\t2\t5\t0\t3\t3\t1\t3\t4\t5\t7\t8\nM\t10\t0\t1\t2\nM\t20\t0\t1\t2\n",
        number: 52,
        line: Some(2),
    },
    Wrong {
        what: "a lowest size above 9,999,999",
        text: b"L\tN\t10\t2\t5\t0\t3\t3\t1\t3\t4\t5\t7\t8\nL\tN\t10000000\t2\t5\t0\t3\t3\t1\t3\t4\t5\t7\t8\nL\tT\t10\t2\t5\t0\t3\t3\t1\t3\t4\t5\t7\t8\nL\tR\t10\t2\t5\t0\t3\t3\t1\t3\t4\t5\t7\t8\nM\t10\t0\t1\t2\nM\t20\t0\t1\t2\n",
        number: 52,
        line: Some(2),
    },
    Wrong {
        what: "a number of 30 digits",
        text: b"L\tN\t10\t2\t5\t0\t3\t3\t1\t3\t4\t5\t7\t8\nL\tN\t100000000000000000000000000000\t2\t5\t0\t3\t3\t1\t3\t4\t5\t7\t8\nL\tT\t10\t2\t5\t0\t3\t3\t1\t3\t4\t5\t7\t8\nL\tR\t10\t2\t5\t0\t3\t3\t1\t3\t4\t5\t7\t8\nM\t10\t0\t1\t2\nM\t20\t0\t1\t2\n",
        number: 52,
        line: Some(2),
    },
    Wrong {
        what: "a number of 30 digits among the limits",
        text: b"L\tN\t10\t2\t5\t0\t3\t3\t1\t3\t4\t5\t7\t8\nL\tN\t20\t2\t5\t0\t3\t3\t1\t3\t4\t5\t7\t8\nL\tT\t10\t2\t5\t0\t3\t3\t1\t3\t4\t5\t7\t8\nL\tR\t10\t2\t5\t0\t3\t3\t1\t3\t4\t5\t7\t8\nM\t10\t0\t1\t2\nM\t20\t999999999999999999999999999999\t1\t2\n",
        number: 52,
        line: Some(6),
    },
    Wrong {
        what: "a number that is 3 modulo 2^32",
        text: b"L\tN\t10\t2\t5\t0\t4294967299\t3\t1\t3\t4\t5\t7\t8\nL\tN\t20\t2\t5\t0\t3\t3\t1\t3\t4\t5\t7\t8\nL\tT\t10\t2\t5\t0\t3\t3\t1\t3\t4\t5\t7\t8\nL\tR\t10\t2\t5\t0\t3\t3\t1\t3\t4\t5\t7\t8\nM\t10\t0\t1\t2\nM\t20\t0\t1\t2\n",
        number: 52,
        line: Some(1),
    },
    Wrong {
        what: "acceptance at rejection",
        text: b"L\tN\t10\t2\t5\t0\t3\t3\t1\t3\t4\t5\t7\t8\nL\tN\t20\t2\t5\t0\t3\t3\t1\t3\t4\t5\t7\t8\nL\tT\t10\t2\t5\t3\t3\t3\t1\t3\t4\t5\t7\t8\nL\tR\t10\t2\t5\t0\t3\t3\t1\t3\t4\t5\t7\t8\nM\t10\t0\t1\t2\nM\t20\t0\t1\t2\n",
        number: 52,
        line: Some(3),
    },
    Wrong {
        what: "acceptance above that of both",
        text: b"L\tN\t10\t2\t5\t0\t3\t3\t1\t3\t4\t5\t7\t8\nL\tN\t20\t2\t5\t0\t3\t3\t1\t3\t4\t5\t7\t8\nL\tT\t10\t2\t5\t0\t3\t3\t5\t6\t4\t5\t7\t8\nL\tR\t10\t2\t5\t0\t3\t3\t1\t3\t4\t5\t7\t8\nM\t10\t0\t1\t2\nM\t20\t0\t1\t2\n",
        number: 52,
        line: Some(3),
    },
    Wrong {
        what: "rejection two above the acceptance of both",
        text: b"L\tN\t10\t2\t5\t0\t3\t3\t1\t3\t4\t5\t7\t8\nL\tN\t20\t2\t5\t0\t3\t3\t1\t3\t4\t5\t7\t8\nL\tT\t10\t2\t5\t0\t3\t3\t1\t3\t4\t5\t10\t8\nL\tR\t10\t2\t5\t0\t3\t3\t1\t3\t4\t5\t7\t8\nM\t10\t0\t1\t2\nM\t20\t0\t1\t2\n",
        number: 52,
        line: Some(3),
    },
    Wrong {
        what: "a single plan that leaves a lot open",
        text: b"L\tN\t10\t2\t5\t0\t3\t3\t1\t3\t4\t5\t7\t8\nL\tN\t20\t2\t5\t0\t3\t3\t1\t3\t4\t5\t7\t8\nL\tT\t10\t5\t5\t0\t2\t1\t1\t2\t1\t5\t6\t5\nL\tR\t10\t2\t5\t0\t3\t3\t1\t3\t4\t5\t7\t8\nM\t10\t0\t1\t2\nM\t20\t0\t1\t2\n",
        number: 52,
        line: Some(3),
    },
    Wrong {
        what: "a single plan with another acceptance of both",
        text: b"L\tN\t10\t2\t5\t0\t3\t3\t1\t3\t4\t5\t7\t8\nL\tN\t20\t2\t5\t0\t3\t3\t1\t3\t4\t5\t7\t8\nL\tT\t10\t5\t5\t0\t1\t1\t1\t2\t1\t5\t6\t5\nL\tR\t10\t2\t5\t0\t3\t3\t1\t3\t4\t5\t7\t8\nM\t10\t0\t1\t2\nM\t20\t0\t1\t2\n",
        number: 52,
        line: Some(3),
    },
    Wrong {
        what: "limits above 9,999,999",
        text: b"L\tN\t10\t2\t5\t0\t3\t3\t1\t3\t4\t5\t7\t8\nL\tN\t20\t2\t5\t0\t3\t3\t1\t3\t4\t5\t7\t8\nL\tT\t10\t2\t5\t0\t3\t3\t1\t3\t4\t5\t7\t8\nL\tR\t10\t2\t5\t0\t3\t3\t1\t3\t4\t5\t7\t8\nM\t10\t0\t1\t10000000\nM\t20\t0\t1\t2\n",
        number: 52,
        line: Some(5),
    },
    Wrong {
        what: "a bound and the order",
        text: b"L\tN\t10\t2\t5\t0\t3\t3\t1\t3\t4\t5\t7\t8\nL\tN\t10\t0\t5\t0\t3\t3\t1\t3\t4\t5\t7\t8\nL\tT\t10\t2\t5\t0\t3\t3\t1\t3\t4\t5\t7\t8\nL\tR\t10\t2\t5\t0\t3\t3\t1\t3\t4\t5\t7\t8\nM\t10\t0\t1\t2\nM\t20\t0\t1\t2\n",
        number: 52,
        line: Some(2),
    },
    Wrong {
        what: "the lowest size of the row before",
        text: b"L\tN\t10\t2\t5\t0\t3\t3\t1\t3\t4\t5\t7\t8\nL\tN\t10\t2\t5\t0\t3\t3\t1\t3\t4\t5\t7\t8\nL\tT\t10\t2\t5\t0\t3\t3\t1\t3\t4\t5\t7\t8\nL\tR\t10\t2\t5\t0\t3\t3\t1\t3\t4\t5\t7\t8\nM\t10\t0\t1\t2\nM\t20\t0\t1\t2\n",
        number: 53,
        line: Some(2),
    },
    Wrong {
        what: "a smaller lowest size",
        text: b"L\tN\t10\t2\t5\t0\t3\t3\t1\t3\t4\t5\t7\t8\nL\tN\t9\t2\t5\t0\t3\t3\t1\t3\t4\t5\t7\t8\nL\tT\t10\t2\t5\t0\t3\t3\t1\t3\t4\t5\t7\t8\nL\tR\t10\t2\t5\t0\t3\t3\t1\t3\t4\t5\t7\t8\nM\t10\t0\t1\t2\nM\t20\t0\t1\t2\n",
        number: 53,
        line: Some(2),
    },
    Wrong {
        what: "a status before the last",
        text: b"L\tT\t10\t2\t5\t0\t3\t3\t1\t3\t4\t5\t7\t8\nL\tN\t10\t2\t5\t0\t3\t3\t1\t3\t4\t5\t7\t8\nL\tR\t10\t2\t5\t0\t3\t3\t1\t3\t4\t5\t7\t8\nM\t10\t0\t1\t2\n",
        number: 53,
        line: Some(2),
    },
    Wrong {
        what: "a status come back",
        text: b"L\tN\t10\t2\t5\t0\t3\t3\t1\t3\t4\t5\t7\t8\nL\tT\t10\t2\t5\t0\t3\t3\t1\t3\t4\t5\t7\t8\nL\tN\t20\t2\t5\t0\t3\t3\t1\t3\t4\t5\t7\t8\nL\tR\t10\t2\t5\t0\t3\t3\t1\t3\t4\t5\t7\t8\nM\t10\t0\t1\t2\n",
        number: 53,
        line: Some(3),
    },
    Wrong {
        what: "a lot row after a limit row",
        text: b"L\tN\t10\t2\t5\t0\t3\t3\t1\t3\t4\t5\t7\t8\nL\tT\t10\t2\t5\t0\t3\t3\t1\t3\t4\t5\t7\t8\nM\t10\t0\t1\t2\nL\tR\t10\t2\t5\t0\t3\t3\t1\t3\t4\t5\t7\t8\nM\t20\t0\t1\t2\n",
        number: 53,
        line: Some(4),
    },
    Wrong {
        what: "the lowest units of the row before",
        text: b"L\tN\t10\t2\t5\t0\t3\t3\t1\t3\t4\t5\t7\t8\nL\tN\t20\t2\t5\t0\t3\t3\t1\t3\t4\t5\t7\t8\nL\tT\t10\t2\t5\t0\t3\t3\t1\t3\t4\t5\t7\t8\nL\tR\t10\t2\t5\t0\t3\t3\t1\t3\t4\t5\t7\t8\nM\t10\t0\t1\t2\nM\t10\t0\t1\t2\n",
        number: 53,
        line: Some(6),
    },
    Wrong {
        what: "two bad lines",
        text: b"L\tN\t10\t2\t5\t0\t3\t3\t1\t3\t4\t5\t7\t8\nL\tN\t10\t2\t5\t0\t3\t3\t1\t3\t4\t5\t7\t8\nK\nM\t10\t0\t1\t2\n",
        number: 53,
        line: Some(2),
    },
    Wrong {
        what: "no row for normal",
        text: b"L\tT\t10\t2\t5\t0\t3\t3\t1\t3\t4\t5\t7\t8\nL\tR\t10\t2\t5\t0\t3\t3\t1\t3\t4\t5\t7\t8\nM\t10\t0\t1\t2\n",
        number: 54,
        line: None,
    },
    Wrong {
        what: "no row for tightened",
        text: b"L\tN\t10\t2\t5\t0\t3\t3\t1\t3\t4\t5\t7\t8\nL\tR\t10\t2\t5\t0\t3\t3\t1\t3\t4\t5\t7\t8\nM\t10\t0\t1\t2\n",
        number: 54,
        line: None,
    },
    Wrong {
        what: "no row for reduced",
        text: b"L\tN\t10\t2\t5\t0\t3\t3\t1\t3\t4\t5\t7\t8\nL\tT\t10\t2\t5\t0\t3\t3\t1\t3\t4\t5\t7\t8\nM\t10\t0\t1\t2\n",
        number: 54,
        line: None,
    },
    Wrong {
        what: "no limit row",
        text: b"L\tN\t10\t2\t5\t0\t3\t3\t1\t3\t4\t5\t7\t8\nL\tT\t10\t2\t5\t0\t3\t3\t1\t3\t4\t5\t7\t8\nL\tR\t10\t2\t5\t0\t3\t3\t1\t3\t4\t5\t7\t8\n",
        number: 54,
        line: None,
    },
    Wrong {
        what: "33 rows on reduced",
        text: b"L\tN\t10\t2\t5\t0\t3\t3\t1\t3\t4\t5\t7\t8\nL\tT\t10\t2\t5\t0\t3\t3\t1\t3\t4\t5\t7\t8\nL\tR\t10\t2\t5\t0\t3\t3\t1\t3\t4\t5\t7\t8\nL\tR\t11\t2\t5\t0\t3\t3\t1\t3\t4\t5\t7\t8\nL\tR\t12\t2\t5\t0\t3\t3\t1\t3\t4\t5\t7\t8\nL\tR\t13\t2\t5\t0\t3\t3\t1\t3\t4\t5\t7\t8\nL\tR\t14\t2\t5\t0\t3\t3\t1\t3\t4\t5\t7\t8\nL\tR\t15\t2\t5\t0\t3\t3\t1\t3\t4\t5\t7\t8\nL\tR\t16\t2\t5\t0\t3\t3\t1\t3\t4\t5\t7\t8\nL\tR\t17\t2\t5\t0\t3\t3\t1\t3\t4\t5\t7\t8\nL\tR\t18\t2\t5\t0\t3\t3\t1\t3\t4\t5\t7\t8\nL\tR\t19\t2\t5\t0\t3\t3\t1\t3\t4\t5\t7\t8\nL\tR\t20\t2\t5\t0\t3\t3\t1\t3\t4\t5\t7\t8\nL\tR\t21\t2\t5\t0\t3\t3\t1\t3\t4\t5\t7\t8\nL\tR\t22\t2\t5\t0\t3\t3\t1\t3\t4\t5\t7\t8\nL\tR\t23\t2\t5\t0\t3\t3\t1\t3\t4\t5\t7\t8\nL\tR\t24\t2\t5\t0\t3\t3\t1\t3\t4\t5\t7\t8\nL\tR\t25\t2\t5\t0\t3\t3\t1\t3\t4\t5\t7\t8\nL\tR\t26\t2\t5\t0\t3\t3\t1\t3\t4\t5\t7\t8\nL\tR\t27\t2\t5\t0\t3\t3\t1\t3\t4\t5\t7\t8\nL\tR\t28\t2\t5\t0\t3\t3\t1\t3\t4\t5\t7\t8\nL\tR\t29\t2\t5\t0\t3\t3\t1\t3\t4\t5\t7\t8\nL\tR\t30\t2\t5\t0\t3\t3\t1\t3\t4\t5\t7\t8\nL\tR\t31\t2\t5\t0\t3\t3\t1\t3\t4\t5\t7\t8\nL\tR\t32\t2\t5\t0\t3\t3\t1\t3\t4\t5\t7\t8\nL\tR\t33\t2\t5\t0\t3\t3\t1\t3\t4\t5\t7\t8\nL\tR\t34\t2\t5\t0\t3\t3\t1\t3\t4\t5\t7\t8\nL\tR\t35\t2\t5\t0\t3\t3\t1\t3\t4\t5\t7\t8\nL\tR\t36\t2\t5\t0\t3\t3\t1\t3\t4\t5\t7\t8\nL\tR\t37\t2\t5\t0\t3\t3\t1\t3\t4\t5\t7\t8\nL\tR\t38\t2\t5\t0\t3\t3\t1\t3\t4\t5\t7\t8\nL\tR\t39\t2\t5\t0\t3\t3\t1\t3\t4\t5\t7\t8\nL\tR\t40\t2\t5\t0\t3\t3\t1\t3\t4\t5\t7\t8\nL\tR\t41\t2\t5\t0\t3\t3\t1\t3\t4\t5\t7\t8\nL\tR\t42\t2\t5\t0\t3\t3\t1\t3\t4\t5\t7\t8\nM\t10\t0\t1\t2\n",
        number: 54,
        line: None,
    },
    Wrong {
        what: "17 limit rows",
        text: b"L\tN\t10\t2\t5\t0\t3\t3\t1\t3\t4\t5\t7\t8\nL\tT\t10\t2\t5\t0\t3\t3\t1\t3\t4\t5\t7\t8\nL\tR\t10\t2\t5\t0\t3\t3\t1\t3\t4\t5\t7\t8\nM\t0\t0\t1\t2\nM\t1\t0\t1\t2\nM\t2\t0\t1\t2\nM\t3\t0\t1\t2\nM\t4\t0\t1\t2\nM\t5\t0\t1\t2\nM\t6\t0\t1\t2\nM\t7\t0\t1\t2\nM\t8\t0\t1\t2\nM\t9\t0\t1\t2\nM\t10\t0\t1\t2\nM\t11\t0\t1\t2\nM\t12\t0\t1\t2\nM\t13\t0\t1\t2\nM\t14\t0\t1\t2\nM\t15\t0\t1\t2\nM\t16\t0\t1\t2\n",
        number: 54,
        line: None,
    },
    Wrong {
        what: "33 rows and then a bad one",
        text: b"L\tN\t10\t2\t5\t0\t3\t3\t1\t3\t4\t5\t7\t8\nL\tN\t11\t2\t5\t0\t3\t3\t1\t3\t4\t5\t7\t8\nL\tN\t12\t2\t5\t0\t3\t3\t1\t3\t4\t5\t7\t8\nL\tN\t13\t2\t5\t0\t3\t3\t1\t3\t4\t5\t7\t8\nL\tN\t14\t2\t5\t0\t3\t3\t1\t3\t4\t5\t7\t8\nL\tN\t15\t2\t5\t0\t3\t3\t1\t3\t4\t5\t7\t8\nL\tN\t16\t2\t5\t0\t3\t3\t1\t3\t4\t5\t7\t8\nL\tN\t17\t2\t5\t0\t3\t3\t1\t3\t4\t5\t7\t8\nL\tN\t18\t2\t5\t0\t3\t3\t1\t3\t4\t5\t7\t8\nL\tN\t19\t2\t5\t0\t3\t3\t1\t3\t4\t5\t7\t8\nL\tN\t20\t2\t5\t0\t3\t3\t1\t3\t4\t5\t7\t8\nL\tN\t21\t2\t5\t0\t3\t3\t1\t3\t4\t5\t7\t8\nL\tN\t22\t2\t5\t0\t3\t3\t1\t3\t4\t5\t7\t8\nL\tN\t23\t2\t5\t0\t3\t3\t1\t3\t4\t5\t7\t8\nL\tN\t24\t2\t5\t0\t3\t3\t1\t3\t4\t5\t7\t8\nL\tN\t25\t2\t5\t0\t3\t3\t1\t3\t4\t5\t7\t8\nL\tN\t26\t2\t5\t0\t3\t3\t1\t3\t4\t5\t7\t8\nL\tN\t27\t2\t5\t0\t3\t3\t1\t3\t4\t5\t7\t8\nL\tN\t28\t2\t5\t0\t3\t3\t1\t3\t4\t5\t7\t8\nL\tN\t29\t2\t5\t0\t3\t3\t1\t3\t4\t5\t7\t8\nL\tN\t30\t2\t5\t0\t3\t3\t1\t3\t4\t5\t7\t8\nL\tN\t31\t2\t5\t0\t3\t3\t1\t3\t4\t5\t7\t8\nL\tN\t32\t2\t5\t0\t3\t3\t1\t3\t4\t5\t7\t8\nL\tN\t33\t2\t5\t0\t3\t3\t1\t3\t4\t5\t7\t8\nL\tN\t34\t2\t5\t0\t3\t3\t1\t3\t4\t5\t7\t8\nL\tN\t35\t2\t5\t0\t3\t3\t1\t3\t4\t5\t7\t8\nL\tN\t36\t2\t5\t0\t3\t3\t1\t3\t4\t5\t7\t8\nL\tN\t37\t2\t5\t0\t3\t3\t1\t3\t4\t5\t7\t8\nL\tN\t38\t2\t5\t0\t3\t3\t1\t3\t4\t5\t7\t8\nL\tN\t39\t2\t5\t0\t3\t3\t1\t3\t4\t5\t7\t8\nL\tN\t40\t2\t5\t0\t3\t3\t1\t3\t4\t5\t7\t8\nL\tN\t41\t2\t5\t0\t3\t3\t1\t3\t4\t5\t7\t8\nL\tN\t42\t2\t5\t0\t3\t3\t1\t3\t4\t5\t7\t8\nK\n",
        number: 51,
        line: Some(34),
    },
];

const MOST: &[u8] =
    b"L\tN\t10\t2\t5\t0\t3\t3\t1\t3\t4\t5\t7\t8\nL\tN\t11\t2\t5\t0\t3\t3\t1\t3\t4\t5\t7\t8\nL\tN\t12\t2\t5\t0\t3\t3\t1\t3\t4\t5\t7\t8\nL\tN\t13\t2\t5\t0\t3\t3\t1\t3\t4\t5\t7\t8\nL\tN\t14\t2\t5\t0\t3\t3\t1\t3\t4\t5\t7\t8\nL\tN\t15\t2\t5\t0\t3\t3\t1\t3\t4\t5\t7\t8\nL\tN\t16\t2\t5\t0\t3\t3\t1\t3\t4\t5\t7\t8\nL\tN\t17\t2\t5\t0\t3\t3\t1\t3\t4\t5\t7\t8\nL\tN\t18\t2\t5\t0\t3\t3\t1\t3\t4\t5\t7\t8\nL\tN\t19\t2\t5\t0\t3\t3\t1\t3\t4\t5\t7\t8\nL\tN\t20\t2\t5\t0\t3\t3\t1\t3\t4\t5\t7\t8\nL\tN\t21\t2\t5\t0\t3\t3\t1\t3\t4\t5\t7\t8\nL\tN\t22\t2\t5\t0\t3\t3\t1\t3\t4\t5\t7\t8\nL\tN\t23\t2\t5\t0\t3\t3\t1\t3\t4\t5\t7\t8\nL\tN\t24\t2\t5\t0\t3\t3\t1\t3\t4\t5\t7\t8\nL\tN\t25\t2\t5\t0\t3\t3\t1\t3\t4\t5\t7\t8\nL\tN\t26\t2\t5\t0\t3\t3\t1\t3\t4\t5\t7\t8\nL\tN\t27\t2\t5\t0\t3\t3\t1\t3\t4\t5\t7\t8\nL\tN\t28\t2\t5\t0\t3\t3\t1\t3\t4\t5\t7\t8\nL\tN\t29\t2\t5\t0\t3\t3\t1\t3\t4\t5\t7\t8\nL\tN\t30\t2\t5\t0\t3\t3\t1\t3\t4\t5\t7\t8\nL\tN\t31\t2\t5\t0\t3\t3\t1\t3\t4\t5\t7\t8\nL\tN\t32\t2\t5\t0\t3\t3\t1\t3\t4\t5\t7\t8\nL\tN\t33\t2\t5\t0\t3\t3\t1\t3\t4\t5\t7\t8\nL\tN\t34\t2\t5\t0\t3\t3\t1\t3\t4\t5\t7\t8\nL\tN\t35\t2\t5\t0\t3\t3\t1\t3\t4\t5\t7\t8\nL\tN\t36\t2\t5\t0\t3\t3\t1\t3\t4\t5\t7\t8\nL\tN\t37\t2\t5\t0\t3\t3\t1\t3\t4\t5\t7\t8\nL\tN\t38\t2\t5\t0\t3\t3\t1\t3\t4\t5\t7\t8\nL\tN\t39\t2\t5\t0\t3\t3\t1\t3\t4\t5\t7\t8\nL\tN\t40\t2\t5\t0\t3\t3\t1\t3\t4\t5\t7\t8\nL\tN\t41\t2\t5\t0\t3\t3\t1\t3\t4\t5\t7\t8\nL\tT\t10\t2\t5\t0\t3\t3\t1\t3\t4\t5\t7\t8\nL\tT\t11\t2\t5\t0\t3\t3\t1\t3\t4\t5\t7\t8\nL\tT\t12\t2\t5\t0\t3\t3\t1\t3\t4\t5\t7\t8\nL\tT\t13\t2\t5\t0\t3\t3\t1\t3\t4\t5\t7\t8\nL\tT\t14\t2\t5\t0\t3\t3\t1\t3\t4\t5\t7\t8\nL\tT\t15\t2\t5\t0\t3\t3\t1\t3\t4\t5\t7\t8\nL\tT\t16\t2\t5\t0\t3\t3\t1\t3\t4\t5\t7\t8\nL\tT\t17\t2\t5\t0\t3\t3\t1\t3\t4\t5\t7\t8\nL\tT\t18\t2\t5\t0\t3\t3\t1\t3\t4\t5\t7\t8\nL\tT\t19\t2\t5\t0\t3\t3\t1\t3\t4\t5\t7\t8\nL\tT\t20\t2\t5\t0\t3\t3\t1\t3\t4\t5\t7\t8\nL\tT\t21\t2\t5\t0\t3\t3\t1\t3\t4\t5\t7\t8\nL\tT\t22\t2\t5\t0\t3\t3\t1\t3\t4\t5\t7\t8\nL\tT\t23\t2\t5\t0\t3\t3\t1\t3\t4\t5\t7\t8\nL\tT\t24\t2\t5\t0\t3\t3\t1\t3\t4\t5\t7\t8\nL\tT\t25\t2\t5\t0\t3\t3\t1\t3\t4\t5\t7\t8\nL\tT\t26\t2\t5\t0\t3\t3\t1\t3\t4\t5\t7\t8\nL\tT\t27\t2\t5\t0\t3\t3\t1\t3\t4\t5\t7\t8\nL\tT\t28\t2\t5\t0\t3\t3\t1\t3\t4\t5\t7\t8\nL\tT\t29\t2\t5\t0\t3\t3\t1\t3\t4\t5\t7\t8\nL\tT\t30\t2\t5\t0\t3\t3\t1\t3\t4\t5\t7\t8\nL\tT\t31\t2\t5\t0\t3\t3\t1\t3\t4\t5\t7\t8\nL\tT\t32\t2\t5\t0\t3\t3\t1\t3\t4\t5\t7\t8\nL\tT\t33\t2\t5\t0\t3\t3\t1\t3\t4\t5\t7\t8\nL\tT\t34\t2\t5\t0\t3\t3\t1\t3\t4\t5\t7\t8\nL\tT\t35\t2\t5\t0\t3\t3\t1\t3\t4\t5\t7\t8\nL\tT\t36\t2\t5\t0\t3\t3\t1\t3\t4\t5\t7\t8\nL\tT\t37\t2\t5\t0\t3\t3\t1\t3\t4\t5\t7\t8\nL\tT\t38\t2\t5\t0\t3\t3\t1\t3\t4\t5\t7\t8\nL\tT\t39\t2\t5\t0\t3\t3\t1\t3\t4\t5\t7\t8\nL\tT\t40\t2\t5\t0\t3\t3\t1\t3\t4\t5\t7\t8\nL\tT\t41\t2\t5\t0\t3\t3\t1\t3\t4\t5\t7\t8\nL\tR\t10\t2\t5\t0\t3\t3\t1\t3\t4\t5\t7\t8\nL\tR\t11\t2\t5\t0\t3\t3\t1\t3\t4\t5\t7\t8\nL\tR\t12\t2\t5\t0\t3\t3\t1\t3\t4\t5\t7\t8\nL\tR\t13\t2\t5\t0\t3\t3\t1\t3\t4\t5\t7\t8\nL\tR\t14\t2\t5\t0\t3\t3\t1\t3\t4\t5\t7\t8\nL\tR\t15\t2\t5\t0\t3\t3\t1\t3\t4\t5\t7\t8\nL\tR\t16\t2\t5\t0\t3\t3\t1\t3\t4\t5\t7\t8\nL\tR\t17\t2\t5\t0\t3\t3\t1\t3\t4\t5\t7\t8\nL\tR\t18\t2\t5\t0\t3\t3\t1\t3\t4\t5\t7\t8\nL\tR\t19\t2\t5\t0\t3\t3\t1\t3\t4\t5\t7\t8\nL\tR\t20\t2\t5\t0\t3\t3\t1\t3\t4\t5\t7\t8\nL\tR\t21\t2\t5\t0\t3\t3\t1\t3\t4\t5\t7\t8\nL\tR\t22\t2\t5\t0\t3\t3\t1\t3\t4\t5\t7\t8\nL\tR\t23\t2\t5\t0\t3\t3\t1\t3\t4\t5\t7\t8\nL\tR\t24\t2\t5\t0\t3\t3\t1\t3\t4\t5\t7\t8\nL\tR\t25\t2\t5\t0\t3\t3\t1\t3\t4\t5\t7\t8\nL\tR\t26\t2\t5\t0\t3\t3\t1\t3\t4\t5\t7\t8\nL\tR\t27\t2\t5\t0\t3\t3\t1\t3\t4\t5\t7\t8\nL\tR\t28\t2\t5\t0\t3\t3\t1\t3\t4\t5\t7\t8\nL\tR\t29\t2\t5\t0\t3\t3\t1\t3\t4\t5\t7\t8\nL\tR\t30\t2\t5\t0\t3\t3\t1\t3\t4\t5\t7\t8\nL\tR\t31\t2\t5\t0\t3\t3\t1\t3\t4\t5\t7\t8\nL\tR\t32\t2\t5\t0\t3\t3\t1\t3\t4\t5\t7\t8\nL\tR\t33\t2\t5\t0\t3\t3\t1\t3\t4\t5\t7\t8\nL\tR\t34\t2\t5\t0\t3\t3\t1\t3\t4\t5\t7\t8\nL\tR\t35\t2\t5\t0\t3\t3\t1\t3\t4\t5\t7\t8\nL\tR\t36\t2\t5\t0\t3\t3\t1\t3\t4\t5\t7\t8\nL\tR\t37\t2\t5\t0\t3\t3\t1\t3\t4\t5\t7\t8\nL\tR\t38\t2\t5\t0\t3\t3\t1\t3\t4\t5\t7\t8\nL\tR\t39\t2\t5\t0\t3\t3\t1\t3\t4\t5\t7\t8\nL\tR\t40\t2\t5\t0\t3\t3\t1\t3\t4\t5\t7\t8\nL\tR\t41\t2\t5\t0\t3\t3\t1\t3\t4\t5\t7\t8\nM\t0\t0\t1\t2\nM\t1\t0\t1\t2\nM\t2\t0\t1\t2\nM\t3\t0\t1\t2\nM\t4\t0\t1\t2\nM\t5\t0\t1\t2\nM\t6\t0\t1\t2\nM\t7\t0\t1\t2\nM\t8\t0\t1\t2\nM\t9\t0\t1\t2\nM\t10\t0\t1\t2\nM\t11\t0\t1\t2\nM\t12\t0\t1\t2\nM\t13\t0\t1\t2\nM\t14\t0\t1\t2\nM\t15\t0\t1\t2\n";

// Why the text is refused.
fn refusal(text: &[u8], heap: Global) -> Result<Refusal, Fail> {
    match read_plan(text, heap) {
        Err(PlanError::Refused(refusal)) => Ok(refusal),
        Err(error) => Err(error.into()),
        Ok(_) => Err("the text was taken".into()),
    }
}

#[test]
fn a_text_is_refused_at_its_first_bad_line(rt: HostRuntime) -> Result<(), Fail> {
    for wrong in &WRONG {
        println!(rt; "{}", wrong.what)?;
        let notice = Notice {
            number: wrong.number,
            place: wrong.line.map(Place::PlanLine),
        };
        assert_eq!(rt; refusal(wrong.text, rt.alloc())?.notice(), notice);
    }
    Ok(())
}

#[test]
fn a_plan_holds_the_rows_of_its_text(rt: HostRuntime) -> Result<(), Fail> {
    let plan = read_plan(GOOD, rt.alloc())?;
    let row = LotRow {
        status: Status::Normal,
        lowest_size: 20,
        first_sample: 2,
        total_sample: 5,
        numbers: PerClass {
            critical: ClassNumbers {
                accept_first: 0,
                reject_first: 3,
                accept_both: 3,
            },
            major: ClassNumbers {
                accept_first: 1,
                reject_first: 3,
                accept_both: 4,
            },
            total: ClassNumbers {
                accept_first: 5,
                reject_first: 7,
                accept_both: 8,
            },
        },
    };
    assert_eq!(rt; plan.lots().len(), 4);
    assert_eq!(rt; plan.limits().len(), 2);
    assert_eq!(rt; plan.lots()[1], row);
    assert_eq!(rt; plan.lot_row(Status::Normal, 20), Some(row));
    assert_eq!(rt; plan.lot_row(Status::Normal, 9_999_999), Some(row));
    assert_eq!(rt; plan.lot_row(Status::Normal, 19), Some(plan.lots()[0]));
    assert_eq!(rt; plan.lot_row(Status::Normal, 9), None);
    let limits = LimitRow {
        lowest_units: 20,
        limits: PerClass {
            critical: 0,
            major: 1,
            total: 2,
        },
    };
    assert_eq!(rt; plan.limits()[1], limits);
    assert_eq!(rt; plan.relief_limits(20), Some(limits));
    assert_eq!(rt; plan.relief_limits(19), Some(plan.limits()[0]));
    assert_eq!(rt; plan.relief_limits(9), None);
    assert_eq!(rt; plan.wide_relief_limits(20), Some(limits));
    assert_eq!(rt; plan.wide_relief_limits(19), Some(plan.limits()[0]));
    assert_eq!(rt; plan.wide_relief_limits(9), None);
    Ok(())
}

#[test]
fn thirty_two_rows_a_status_and_sixteen_limit_rows_are_taken(rt: HostRuntime) -> Result<(), Fail> {
    let plan = read_plan(MOST, rt.alloc())?;
    assert_eq!(rt; plan.lots().len(), 96);
    assert_eq!(rt; plan.limits().len(), 16);
    Ok(())
}

#[test]
fn a_refused_text_leaves_the_plan_as_it_was(rt: HostRuntime) -> Result<(), Fail> {
    let mut plan = PlanBook::fresh(rt.alloc())?;
    for wrong in &WRONG {
        assert!(rt; replace_plan(&mut plan, wrong.text, rt.alloc()).is_err());
        assert_eq!(rt; plan.lots().len(), 3);
        assert_eq!(rt; plan.limits().len(), 1);
    }
    replace_plan(&mut plan, GOOD, rt.alloc())?;
    assert_eq!(rt; plan.lots().len(), 4);
    assert_eq!(rt; plan.limits().len(), 2);
    Ok(())
}
