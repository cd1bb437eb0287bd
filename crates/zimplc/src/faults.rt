//! Models that are refused, with the line that says their first fault.

use crate::runs::*;
use std::alloc::Global;
use std::test::Fail;
use zim_cli::Status;

#[test]
fn models_that_are_refused(rt: HostRuntime) -> Result<(), Fail> {
    for text in [
        "var x; subto a: y >= 1;",
        "var x; var x;",
        "var x; subto a: x >= 1; subto a: x >= 2;",
        "var x; minimize o: x; maximize p: x;",
        "var min;",
        "var x; subto a: 2 x >= 1;",
        "var x; subto a: x/2 >= 1;",
        "var x; subto a: 1/2/3*x >= 1;",
        "var x; subto a: x - -1 >= 1;",
        "var x; subto a: 1 <= x <= 2;",
        "var x; subto a: x >= 1/0;",
        "var x; subto a: x >= 1e39/0.0e5;",
        "var x; subto a: y >= 1e39;",
        "var x; subto a: x >= '1';",
        "var x >= 1;",
        "include \"v.zpl\";",
    ] {
        let ran = outcome_of(rt.alloc(), text.as_bytes(), &COMPILE, ROOM)?;
        assert!(rt; ran.status == Status::Refused);
        assert!(rt; ran.err.taken() == b"m.zpl:1: 5 Syntax\n".as_slice());
        assert!(rt; ran.folder.bytes_of(b"m.lp") == None);
    }
    Ok(())
}

#[test]
fn faults_with_their_lines(rt: HostRuntime) -> Result<(), Fail> {
    for (text, line) in [
        ("param p := 1 $;", "m.zpl:1: 1 BadByte\n"),
        ("param p := \"a;", "m.zpl:1: 2 OpenString\n"),
        ("param p := 1", "m.zpl:1: 6 OpenStatement\n"),
        ("subto a b\n\n&", "m.zpl:3: 1 BadByte\n"),
        ("var x;\n'\n&", "m.zpl:2: 2 OpenString\n"),
        ("var x;\nsubto a: x = 1;", "m.zpl:2: 1 BadByte\n"),
        ("var x;\nsubto a: x >= 1", "m.zpl:2: 6 OpenStatement\n"),
        ("subto a b;\nvar x", "m.zpl:2: 6 OpenStatement\n"),
        ("var x;\nsubto a b;", "m.zpl:2: 5 Syntax\n"),
        ("var x;\nsubto\na: x >= 1\n/ 0;", "m.zpl:2: 5 Syntax\n"),
        // a statement that no rule reads comes before what is wrong with one that is read
        (
            "var x;\nsubto a: x <= 1e39;\nsubto b c;",
            "m.zpl:3: 5 Syntax\n",
        ),
        ("subto a: y <= 1;\nsubto b c;", "m.zpl:2: 5 Syntax\n"),
    ] {
        let ran = outcome_of(rt.alloc(), text.as_bytes(), &COMPILE, ROOM)?;
        assert!(rt; ran.status == Status::Refused);
        assert!(rt; ran.err.taken() == line.as_bytes());
        assert!(rt; ran.folder.bytes_of(b"m.tbl") == None);
    }
    Ok(())
}

#[test]
fn statements_outside_the_grammar_come_first(rt: HostRuntime) -> Result<(), Fail> {
    for (text, line) in [
        // a refused word, at the word, and before what else is wrong with its statement
        ("param p := sqrt(2);", "m.zpl:1: 4 Unsupported sqrt\n"),
        ("subto a b\n+ ln(2);", "m.zpl:2: 4 Unsupported ln\n"),
        // after the pieces and the semicolons
        ("param p := exp(2);\nvar x; $", "m.zpl:2: 1 BadByte\n"),
        ("param p := exp(2);\nvar x", "m.zpl:2: 6 OpenStatement\n"),
        // the first statement that no rule reads, whichever of the faults it has
        ("subto a b;\nparam p := sqrt(2);", "m.zpl:1: 5 Syntax\n"),
        (
            "param p := sqrt(2);\nsubto a b;",
            "m.zpl:1: 4 Unsupported sqrt\n",
        ),
        // before those that are read and not compiled yet, and before undeclared names
        ("var x >= 1;\nsubto a: x + <= 1;", "m.zpl:2: 5 Syntax\n"),
        (
            "set A := {1};\nsubto a: y >= 0;\nparam p := sqrt(2);",
            "m.zpl:3: 4 Unsupported sqrt\n",
        ),
    ] {
        let ran = outcome_of(rt.alloc(), text.as_bytes(), &COMPILE, ROOM)?;
        assert!(rt; ran.status == Status::Refused);
        assert!(rt; ran.err.taken() == line.as_bytes());
        assert!(rt; ran.folder.bytes_of(b"m.tbl") == None);
    }
    Ok(())
}

#[test]
fn statements_that_are_not_compiled_yet_come_in_turn(rt: HostRuntime) -> Result<(), Fail> {
    for (text, line) in [
        // at the statement's first token, wherever in it plain form ends
        ("var x;\nset A :=\n{1};", "m.zpl:2: 5 Syntax\n"),
        ("\nvar x\ninteger;", "m.zpl:2: 5 Syntax\n"),
        (
            "var x; var y;\nsubto a:\n2*(x+y) <= 3;",
            "m.zpl:2: 5 Syntax\n",
        ),
        (
            "var x; var y;\nsubto a: x +\n-y <= 1;",
            "m.zpl:2: 5 Syntax\n",
        ),
        ("var x;\nsubto a:\nx <= infinity;", "m.zpl:2: 5 Syntax\n"),
        // before the numbers of its own and of later statements
        ("var x;\nsubto a:\n1e39 <= (x);", "m.zpl:2: 5 Syntax\n"),
        (
            "var x;\nset A := {1};\nsubto a: x <= 1e39;",
            "m.zpl:2: 5 Syntax\n",
        ),
        // after those of earlier statements, and before the factors of all
        (
            "var x;\nsubto a: 9999999999999999999999999999999999999999*x <= 1;\nset A := {1};",
            "m.zpl:2: 31 Past\n",
        ),
        ("subto a: y <= 1;\nvar y >= 1;", "m.zpl:1: 5 Syntax\n"),
        (
            "var x;\nsubto a: 1/3*x <= 1e38;\ndo print 1;",
            "m.zpl:3: 5 Syntax\n",
        ),
    ] {
        let ran = outcome_of(rt.alloc(), text.as_bytes(), &COMPILE, ROOM)?;
        assert!(rt; ran.status == Status::Refused);
        assert!(rt; ran.err.taken() == line.as_bytes());
        assert!(rt; ran.folder.bytes_of(b"m.tbl") == None);
    }
    Ok(())
}

/// Runs the command over a model that gives a parameter the number 1 in so many parentheses, each opened on a line of its own.
fn outcome_within(alloc: Global, parentheses: usize) -> Result<Ran, Fail> {
    let mut model = String::from_str(alloc, "set A := {1}; param p := ")?;
    for _opened in 0..parentheses {
        model.push_str("(\n")?;
    }
    model.push_str("1")?;
    for _closed in 0..parentheses {
        model.push_str(")")?;
    }
    model.push_str(";")?;
    outcome_of(alloc, model.as_bytes(), &COMPILE, ROOM)
}

#[test]
fn two_hundred_parentheses_are_the_most(rt: HostRuntime) -> Result<(), Fail> {
    // read, and so refused at the first statement, which isn't compiled yet
    let most = outcome_within(rt.alloc(), 200)?;
    assert!(rt; most.status == Status::Refused);
    assert!(rt; most.err.taken() == b"m.zpl:1: 5 Syntax\n".as_slice());
    let more = outcome_within(rt.alloc(), 201)?;
    assert!(rt; more.status == Status::Refused);
    assert!(rt; more.err.taken() == b"m.zpl:201: 7 Deep\n".as_slice());
    Ok(())
}

/// Models with a number past the limit, and the line that says so.
const PAST: &[(&str, &str)] = &[
    // a number, its divisor, and their quotient at the slash
    ("var x;\nsubto a:\n2*x\n<=\n1e39\n;", "m.zpl:5: 31 Past\n"),
    ("var x;\nsubto a: x <=\n1\n/\n1e39\n;", "m.zpl:5: 31 Past\n"),
    (
        "var x;\nsubto a: x >=\n1e38\n/\n1e-38\n;",
        "m.zpl:4: 31 Past\n",
    ),
    // a sum of numbers, or of the coefficients of one name, at the operator
    (
        "var x;\nsubto a: x <=\n170141183460469231731687303715884105727\n+\n1\n;",
        "m.zpl:4: 31 Past\n",
    ),
    (
        "var x;\nminimize o: 170141183460469231731687303715884105727*x\n+\nx\n;",
        "m.zpl:3: 31 Past\n",
    ),
    // numbers alone are added up as they come, and names when all numbers are read
    (
        "var x;\nsubto a: x <= 170141183460469231731687303715884105727\n+ 1\n+ 1e39;",
        "m.zpl:3: 31 Past\n",
    ),
    (
        "var x;\nminimize o: 170141183460469231731687303715884105727*x\n+ x\n+ 1e39*x;",
        "m.zpl:4: 31 Past\n",
    ),
    // the difference of both sides, at the relation
    (
        "var x;\nsubto a: x + 1e38\n<=\n-1e38\n;",
        "m.zpl:3: 31 Past\n",
    ),
    // a row times its factor, at its relation; the objective, at its name
    ("var x;\nsubto a: 1/3*x\n<=\n1e38\n;", "m.zpl:3: 31 Past\n"),
    ("var x;\nminimize\no\n: 1/3*x + 1e38;", "m.zpl:3: 31 Past\n"),
    (
        "var x;\nvar y;\nsubto a: 1/99999999999999999999*x\n+ 1/99999999999999999997*y\n>= 0;",
        "m.zpl:5: 31 Past\n",
    ),
    // what has to do with factors comes last, the rows before the objective
    (
        "var x;\nsubto a: 1/3*x\n<= 1e38;\nsubto b: x <= 1e39;",
        "m.zpl:4: 31 Past\n",
    ),
    (
        "var x;\nminimize o: 1/3*x + 1e38;\nsubto a: 1/3*x\n>= 1e38;",
        "m.zpl:4: 31 Past\n",
    ),
    // a statement's fault comes before those of later statements
    ("var x;\nsubto a: x <= 1e39;\nvar x;", "m.zpl:2: 31 Past\n"),
];

#[test]
fn numbers_past_the_limit_with_their_lines(rt: HostRuntime) -> Result<(), Fail> {
    for (text, line) in PAST {
        let ran = outcome_of(rt.alloc(), text.as_bytes(), &COMPILE, ROOM)?;
        assert!(rt; ran.status == Status::Refused);
        assert!(rt; ran.err.taken() == line.as_bytes());
        assert!(rt; ran.folder.bytes_of(b"m.tbl") == None);
    }
    Ok(())
}

#[test]
fn numbers_at_the_limit(rt: HostRuntime) -> Result<(), Fail> {
    for text in [
        "var x; subto a: x <= 170141183460469231731687303715884105726 + 1;",
        "var x; subto a: x <= 10e37;",
        "var x; subto a: 1e-38*x <= 1e-38;",
        "var x; subto a: 1/3*x <= 5e37;",
        "var x; subto a: x <= 0e999999999999;",
    ] {
        let ran = outcome_of(rt.alloc(), text.as_bytes(), &COMPILE, ROOM)?;
        assert!(rt; ran.status == Status::Done);
    }
    Ok(())
}

#[test]
fn faults_of_models_in_two_files(rt: HostRuntime) -> Result<(), Fail> {
    for (model, included, line) in [
        ("include \"m.zpl\"\n", "", "m.zpl:1: 3 IncludeDeep\n"),
        (
            "\ninclude \"v.zpl\"",
            "\n\ninclude \"m.zpl\"",
            "v.zpl:3: 3 IncludeDeep\n",
        ),
        (
            "var x;\ninclude \"v.zpl\"\nvar y;",
            "\nvar x;",
            "v.zpl:2: 5 Syntax\n",
        ),
        (
            "include \"v.zpl\"\nvar x",
            "var y;",
            "m.zpl:2: 6 OpenStatement\n",
        ),
        (
            "var x;\ninclude \"v.zpl\"\nsubto a: x <= 1e39;",
            "var y;\n\n\n",
            "m.zpl:3: 31 Past\n",
        ),
        (
            "var x;\nsubto a: x <=\ninclude \"v.zpl\"\n;",
            "\n1e39\n",
            "v.zpl:2: 31 Past\n",
        ),
        (
            "var x;\ninclude \"v.zpl\"\nsubto b: x >= 1;",
            "subto a: 1/3*x\n<= 1e38;",
            "v.zpl:2: 31 Past\n",
        ),
        (
            "include \"v.zpl\"\nsubto a b;",
            "set A := {1};",
            "m.zpl:2: 5 Syntax\n",
        ),
        (
            "include \"v.zpl\"\ninclude \"v.zpl\"",
            "var x;",
            "v.zpl:1: 5 Syntax\n",
        ),
    ] {
        let ran = outcome_with(rt.alloc(), model.as_bytes(), included.as_bytes())?;
        assert!(rt; ran.status == Status::Refused);
        assert!(rt; ran.err.taken() == line.as_bytes());
        assert!(rt; ran.folder.bytes_of(b"m.tbl") == None);
    }
    Ok(())
}
