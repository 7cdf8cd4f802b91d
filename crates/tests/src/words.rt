//! Words with their kinds and classes, and what grammars are read with.

use hddl_text::lex;
use hddl_words::{Class, Cursor, Items, Name, Stop, TextFault, Token, Variable, class_of, is_same};
use std::alloc::{AllocError, Global};
use std::process::Abort;

/// Expects the words of a text: the place, the kind, the class and the text of each.
fn expect_words<R: Abort>(
    rt: &R,
    alloc: Global,
    text: &[u8],
    expected: &str,
) -> Result<(), TextFault> {
    let tokens = lex(alloc, text)?;
    let mut lines = String::new(alloc);
    for token in tokens.as_slice() {
        let class = class_of(token);
        let word = String::from_utf8_lossy(alloc, token.text)?;
        writeln!(lines, "{} {:?} {class:?} {word}", token.place, token.kind)?;
    }
    assert!(rt; lines.as_str() == expected, "{lines}");
    Ok(())
}

/// Words that no blanks part, and a comment.
const PLACES: &str = "0 Open Open (
1 Name Name s1
20 Variable Variable ?x
23 Keyword Keyword(Other) :key
28 Sign Minus -
29 Close Close )
30 Sign Less <
32 Name Name and=
37 Name Reserved or
";

const CLASSES: &str = "0 Open Open (
2 Close Close )
4 Variable Variable ?x
7 Sign Minus -
9 Sign Equal =
11 Sign Less <
13 Name And and
17 Name Not NOT
21 Name Forall forAll
28 Name Reserved either
35 Name Name a
37 Keyword Keyword(Types) :Types
44 Keyword Keyword(Subtasks) :tasks
51 Keyword Keyword(Subtasks) :SUBTASKS
61 Keyword Keyword(OrderedSubtasks) :ordered-tasks
76 Keyword Keyword(Ordering) :order
83 Keyword Keyword(Ordering) :ordering
93 Keyword Keyword(Other) :functions
";

/// Words of HDDL that are left out.
const RESERVED: &str = "0 Name Reserved or
3 Name Reserved imply
9 Name Reserved exists
16 Name Reserved When
21 Name Reserved either
28 Name Reserved increase
37 Name Reserved preference
";

#[test]
fn words(rt: HostRuntime) -> Result<(), TextFault> {
    let text = b"(s1 ; a (comment \x80\n\t?x\x0c:key\r-)< and= or";
    expect_words(&rt, rt.alloc(), text, PLACES)?;
    let text = b"( ) ?x - = < and NOT forAll either a \
        :Types :tasks :SUBTASKS :ordered-tasks :order :ordering :functions";
    expect_words(&rt, rt.alloc(), text, CLASSES)?;
    let text = b"or imply exists When either increase preference";
    expect_words(&rt, rt.alloc(), text, RESERVED)?;
    let text = b"(a ?b)";
    expect_words(
        &rt,
        rt.alloc(),
        text,
        "0 Open Open (\n1 Name Name a\n3 Variable Variable ?b\n5 Close Close )\n",
    )?;
    assert!(rt; is_same(b"DeFine", b"define"));
    Ok(())
}

/// Expects that a cursor over two words refuses each where it stands, and ends after them.
fn expect_end<R: Abort>(rt: &R, cursor: &mut Cursor<'_>) {
    assert!(rt; cursor.next().is_ok());
    assert!(rt; matches!(cursor.refuse(), Stop::Refused(false, 2)));
    assert!(rt; matches!(cursor.refuse_unsupported(), Stop::Refused(true, 2)));
    assert!(rt; cursor.end().is_err());
    assert!(rt; cursor.next().is_ok());
    assert!(rt; cursor.end().is_ok());
    assert!(rt; matches!(cursor.next(), Err(Stop::Refused(false, 0))));
}

/// Whether a word is a name or a variable with this text and at this place.
fn is_named(
    alloc: Global,
    token: &Token<'_>,
    text: &[u8],
    place: usize,
) -> Result<bool, AllocError> {
    match class_of(token) {
        Class::Name => {
            let name = Name::new(alloc, token)?;
            Ok(name.text() == text && name.place() == place)
        }
        Class::Variable => {
            let variable = Variable::new(alloc, token)?;
            Ok(variable.text() == text && variable.place() == place)
        }
        _ => Ok(false),
    }
}

#[test]
fn cursors_and_names(rt: HostRuntime) -> Result<(), TextFault> {
    let tokens = lex(rt.alloc(), b"Road ?x")?;
    let mut cursor = Cursor::new(tokens.as_slice());
    expect_end(&rt, &mut cursor);
    let [name, variable] = tokens.as_slice() else {
        panic!(rt; "not two words")
    };
    assert!(rt; is_named(rt.alloc(), name, b"Road", 0)?, "the name");
    assert!(rt; is_named(rt.alloc(), variable, b"?x", 5)?, "the variable");
    Ok(())
}

/// A tree whose children stand in lists.
#[derive(Drop)]
enum Tree {
    Leaf(u8),
    Node(Items<Tree>),
}

fn make_tree(alloc: Global) -> Result<Tree, AllocError> {
    let mut children = Items::new(alloc);
    children.push(Tree::Leaf(7))?;
    children.push(Tree::Node(Items::new(alloc)))?;
    Ok(Tree::Node(children))
}

fn is_tree(tree: &Tree) -> bool {
    let Tree::Node(children) = tree else {
        return false;
    };
    match children.as_slice() {
        [Tree::Leaf(7), Tree::Node(none)] => children.len() == 2 && none.is_empty(),
        _ => false,
    }
}

#[test]
fn items(rt: HostRuntime) -> Result<(), AllocError> {
    let tree = make_tree(rt.alloc())?;
    assert!(rt; is_tree(&tree), "a list of lists");
    let bytes = Items::from_slice(rt.alloc(), b"abc")?;
    assert!(rt; bytes.as_slice() == b"abc".as_slice(), "a copy");
    Ok(())
}
