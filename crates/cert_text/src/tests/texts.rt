// Texts of reports.

// Three points, version 1, with the diamond test on.
pub const TRIANGLE: &str = "\
mwt 1\n\
diamond on\n\
unit 0\n\
merged 0\n\
points 3\n\
1 0 0\n\
3 0 4\n\
2 3 0\n\
hull 3\n\
0\n\
2\n\
1\n\
candidates 3\n\
live 3\n\
0 1 h 0.000000\n\
0 2 h 12.000000\n\
1 2 h 0.000000\n\
skeleton 3\n\
0 1\n\
0 2\n\
1 2\n\
triangles 1\n\
0 2 1\n\
method flips\n\
length 12.000000 12.000000\n\
bound 12.000000\n\
gap 0.000000\n\
end\n\
";

// Five points, version 1.
pub const FIVE_OF_VERSION_1: &str = "\
mwt 1\n\
diamond off\n\
unit 0\n\
merged 0\n\
points 5\n\
1 0 0\n\
2 2 -2\n\
5 5 1\n\
3 7 -3\n\
4 10 0\n\
hull 5\n\
0\n\
1\n\
3\n\
4\n\
2\n\
candidates 10\n\
live 7\n\
0 1 h 19.505172\n\
0 2 h 0.000000\n\
1 2 i -7.335086\n\
1 3 h 0.000000\n\
2 3 i 2.236067\n\
2 4 h 0.000000\n\
3 4 h 11.577727\n\
skeleton 7\n\
0 1\n\
0 2\n\
1 2\n\
1 3\n\
2 3\n\
2 4\n\
3 4\n\
triangles 3\n\
0 1 2\n\
1 3 2\n\
2 3 4\n\
method flips\n\
length 31.082899 31.082906\n\
bound 31.082899\n\
gap 0.000007\n\
end\n\
";

// Five points, version 2: two edges of the skeleton are no edges of the hull.
pub const FIVE: &str = "\
mwt 2\n\
diamond off\n\
unit 0\n\
merged 0\n\
points 5\n\
1 0 0\n\
2 2 -2\n\
5 5 1\n\
3 7 -3\n\
4 10 0\n\
hull 5\n\
0\n\
1\n\
3\n\
4\n\
2\n\
candidates 10\n\
live 7\n\
0 1 h 19.505172\n\
0 2 h 0.000000\n\
1 2 s -7.335086 0.000000 0.000000\n\
1 3 h 0.000000\n\
2 3 s 2.236067 0.000000 0.000000\n\
2 4 h 0.000000\n\
3 4 h 11.577727\n\
skeleton 7\n\
0 1\n\
0 2\n\
1 2\n\
1 3\n\
2 3\n\
2 4\n\
3 4\n\
triangles 3\n\
0 1 2\n\
1 3 2\n\
2 3 4\n\
method flips\n\
length 31.082899 31.082906\n\
bound 31.082899\n\
gap 0.000007\n\
end\n\
";

// The same points, triangulated face by face.
pub const FIVE_BY_FACES: &str = "\
mwt 2\n\
diamond off\n\
unit 0\n\
merged 0\n\
points 5\n\
1 0 0\n\
2 2 -2\n\
5 5 1\n\
3 7 -3\n\
4 10 0\n\
hull 5\n\
0\n\
1\n\
3\n\
4\n\
2\n\
candidates 10\n\
live 7\n\
0 1 h 2.828427\n\
0 2 h 5.099019\n\
1 2 s 2.121320 2.121320 2.121320\n\
1 3 h 5.099019\n\
2 3 s 2.236067 2.236068 2.236067\n\
2 4 h 5.099019\n\
3 4 h 4.242640\n\
skeleton 7\n\
0 1\n\
0 2\n\
1 2\n\
1 3\n\
2 3\n\
2 4\n\
3 4\n\
triangles 3\n\
0 1 2\n\
1 3 2\n\
2 3 4\n\
method faces\n\
length 31.082899 31.082906\n\
bound 31.082899\n\
gap 0.000007\n\
end\n\
";

// Five points, of which two edges have an anchor on one side.
pub const SPOKES: &str = "\
mwt 2\n\
diamond on\n\
unit 0\n\
merged 0\n\
points 5\n\
1 0 0\n\
2 6 4\n\
3 6 9\n\
4 6 30\n\
5 12 0\n\
hull 3\n\
0\n\
4\n\
3\n\
candidates 9\n\
live 9\n\
0 1 s 3.605551 11.513877 0.000000\n\
0 2 s 5.408326 0.000000 0.000000\n\
0 3 h 46.502444\n\
0 4 h 19.211102\n\
1 2 s 2.500000 0.000000 11.513877\n\
1 4 s 3.605551 0.000000 0.000000\n\
2 3 s 10.500000 0.000000 0.000000\n\
2 4 s 5.408326 0.000000 0.000000\n\
3 4 h 46.502444\n\
skeleton 9\n\
0 1\n\
0 2\n\
0 3\n\
0 4\n\
1 2\n\
1 4\n\
2 3\n\
2 4\n\
3 4\n\
triangles 5\n\
0 1 2\n\
0 2 3\n\
0 4 1\n\
1 4 2\n\
2 4 3\n\
method flips\n\
length 135.243744 135.243750\n\
bound 135.243744\n\
gap 0.000006\n\
end\n\
";
