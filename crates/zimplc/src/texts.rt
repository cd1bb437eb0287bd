//! Models, and the three files that each of them gives.

pub const TWO_VARIABLES_MODEL: &[u8] = b"var x; var y; minimize c: 2*x+3*y; subto a: x+y >= 1;";

pub const TWO_VARIABLES_LP: &[u8] = b"\\ zimplc
Minimize
 obj: 2 x1 + 3 x2
Subject To
 r1: 1 x1 + 1 x2 >= 1
Bounds
 x1 >= 0
 x2 >= 0
End
";

pub const TWO_VARIABLES_MPS: &[u8] = b"NAME zimplc
ROWS
 N obj
 G r1
COLUMNS
 x1 obj 2
 x1 r1 1
 x2 obj 3
 x2 r1 1
RHS
 RHS r1 1
BOUNDS
 LO BND x1 0
 PL BND x1
 LO BND x2 0
 PL BND x2
ENDATA
";

pub const TWO_VARIABLES_TABLE: &[u8] = b"zimplc table 1
factor lp 1
factor mps 1
objective minimize c
column x1 x
column x2 y
row r1 a 1 1
end
";

pub const MOST_MODEL: &[u8] = b"var x; var y; maximize p: 2*x-3*y; subto a: x <= 4;";

pub const MOST_LP: &[u8] = b"\\ zimplc
Maximize
 obj: 2 x1 - 3 x2
Subject To
 r1: 1 x1 <= 4
Bounds
 x1 >= 0
 x2 >= 0
End
";

pub const MOST_MPS: &[u8] = b"NAME zimplc
ROWS
 N obj
 L r1
COLUMNS
 x1 obj -2
 x1 r1 1
 x2 obj 3
RHS
 RHS r1 4
BOUNDS
 LO BND x1 0
 PL BND x1
 LO BND x2 0
 PL BND x2
ENDATA
";

pub const MOST_TABLE: &[u8] = b"zimplc table 1
factor lp 1
factor mps -1
objective maximize p
column x1 x
column x2 y
row r1 a 1 1
end
";

pub const NO_VARIABLE_MODEL: &[u8] = b"";

pub const NO_VARIABLE_LP: &[u8] = b"\\ zimplc
Minimize
 obj: 0 one
Subject To
Bounds
 1 <= one <= 1
End
";

pub const NO_VARIABLE_MPS: &[u8] = b"NAME zimplc
ROWS
 N obj
COLUMNS
 one obj 0
RHS
BOUNDS
 LO BND one 1
 UP BND one 1
ENDATA
";

pub const NO_VARIABLE_TABLE: &[u8] = b"zimplc table 1
factor lp 1
factor mps 1
objective none
offset one
end
";

pub const THIRDS_MODEL: &[u8] = b"var x; var y; subto t: 1/3*x + 1/2*y <= 1/7;";

pub const THIRDS_LP: &[u8] = b"\\ zimplc
Minimize
 obj: 0 x1
Subject To
 r1: 7 x1 + 10.5 x2 <= 3
Bounds
 x1 >= 0
 x2 >= 0
End
";

pub const THIRDS_MPS: &[u8] = b"NAME zimplc
ROWS
 N obj
 L r1
COLUMNS
 x1 obj 0
 x1 r1 7
 x2 obj 0
 x2 r1 10.5
RHS
 RHS r1 3
BOUNDS
 LO BND x1 0
 PL BND x1
 LO BND x2 0
 PL BND x2
ENDATA
";

pub const THIRDS_TABLE: &[u8] = b"zimplc table 1
factor lp 1
factor mps 1
objective none
column x1 x
column x2 y
row r1 t 1 21
end
";

pub const OFFSET_MODEL: &[u8] = b"var x; maximize p: 2/3*x + 5;";

pub const OFFSET_LP: &[u8] = b"\\ zimplc
Maximize
 obj: 2 x1 + 15 one
Subject To
Bounds
 x1 >= 0
 1 <= one <= 1
End
";

pub const OFFSET_MPS: &[u8] = b"NAME zimplc
ROWS
 N obj
COLUMNS
 x1 obj -2
 one obj -15
RHS
BOUNDS
 LO BND x1 0
 PL BND x1
 LO BND one 1
 UP BND one 1
ENDATA
";

pub const OFFSET_TABLE: &[u8] = b"zimplc table 1
factor lp 3
factor mps -3
objective maximize p
column x1 x
offset one
end
";

pub const ONLY_OFFSET_MODEL: &[u8] = b"var x; minimize o: x - x + 1/3;";

pub const ONLY_OFFSET_LP: &[u8] = b"\\ zimplc
Minimize
 obj: 1 one
Subject To
Bounds
 x1 >= 0
 1 <= one <= 1
End
";

pub const ONLY_OFFSET_MPS: &[u8] = b"NAME zimplc
ROWS
 N obj
COLUMNS
 x1 obj 0
 one obj 1
RHS
BOUNDS
 LO BND x1 0
 PL BND x1
 LO BND one 1
 UP BND one 1
ENDATA
";

pub const ONLY_OFFSET_TABLE: &[u8] = b"zimplc table 1
factor lp 3
factor mps 3
objective minimize o
column x1 x
offset one
end
";

pub const NO_TERM_MODEL: &[u8] = b"var x; subto z: x - x <= -1;";

pub const NO_TERM_LP: &[u8] = b"\\ zimplc
Minimize
 obj: 0 x1
Subject To
 r1: 0 x1 <= -1
Bounds
 x1 >= 0
End
";

pub const NO_TERM_MPS: &[u8] = b"NAME zimplc
ROWS
 N obj
 L r1
COLUMNS
 x1 obj 0
RHS
 RHS r1 -1
BOUNDS
 LO BND x1 0
 PL BND x1
ENDATA
";

pub const NO_TERM_TABLE: &[u8] = b"zimplc table 1
factor lp 1
factor mps 1
objective none
column x1 x
row r1 z 1 1
end
";

pub const REPEATED_MODEL: &[u8] = b"var x; var y; minimize o: 0.5*x + .25*y + 0*x;
subto a: x + 2*y + x >= 3 - y;
subto b: 1e2 <= 2.5e1*x + y - 3*y + 7;
subto c: +x - 1/3 == -y - 1/3*x;
subto d: 1 <= 2;";

pub const REPEATED_LP: &[u8] = b"\\ zimplc
Minimize
 obj: 0.5 x1 + 0.25 x2
Subject To
 r1: 2 x1 + 3 x2 >= 3
 r2: -25 x1 + 2 x2 <= -93
 r3: 4 x1 + 3 x2 = 1
 r4: 0 x1 <= 1
Bounds
 x1 >= 0
 x2 >= 0
End
";

pub const REPEATED_MPS: &[u8] = b"NAME zimplc
ROWS
 N obj
 G r1
 L r2
 E r3
 L r4
COLUMNS
 x1 obj 0.5
 x1 r1 2
 x1 r2 -25
 x1 r3 4
 x2 obj 0.25
 x2 r1 3
 x2 r2 2
 x2 r3 3
RHS
 RHS r1 3
 RHS r2 -93
 RHS r3 1
 RHS r4 1
BOUNDS
 LO BND x1 0
 PL BND x1
 LO BND x2 0
 PL BND x2
ENDATA
";

pub const REPEATED_TABLE: &[u8] = b"zimplc table 1
factor lp 1
factor mps 1
objective minimize o
column x1 x
column x2 y
row r1 a 1 1
row r2 b 1 1
row r3 c 1 3
row r4 d 1 1
end
";
