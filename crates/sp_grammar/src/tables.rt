// The table of the grammar, which a script writes from tools/grammar.txt.
use sp_parser::Symbol::{Action, Nonterminal, Terminal};
use sp_parser::{Row, Span, Symbol};

/// The right sides of the productions, one after another.
#[rattlefmt::skip]
pub static SYMBOLS: [Symbol; 901] = [
    Action(0), Terminal(0), Action(1), Terminal(1), Terminal(2), Action(0),
    Nonterminal(1), Action(2), Action(3), Nonterminal(2), Nonterminal(1), Action(0),
    Terminal(3), Action(1), Terminal(1), Terminal(2), Action(4), Action(0),
    Terminal(4), Terminal(5), Nonterminal(11), Terminal(2), Action(5), Action(0),
    Terminal(6), Terminal(5), Action(6), Terminal(7), Terminal(2), Action(7),
    Action(0), Terminal(8), Nonterminal(3), Action(0), Terminal(9), Action(1),
    Terminal(1), Terminal(5), Nonterminal(16), Terminal(2), Action(8), Action(0),
    Terminal(10), Action(1), Terminal(1), Nonterminal(6), Terminal(5), Nonterminal(64),
    Terminal(2), Action(9), Action(0), Terminal(11), Action(1), Terminal(1),
    Terminal(12), Action(0), Nonterminal(13), Terminal(13), Action(2), Nonterminal(6),
    Nonterminal(52), Action(10), Action(0), Terminal(14), Action(0), Action(1),
    Terminal(1), Nonterminal(4), Nonterminal(7), Action(11), Terminal(9), Action(1),
    Terminal(1), Terminal(5), Nonterminal(16), Terminal(2), Action(12), Terminal(10),
    Action(1), Terminal(1), Nonterminal(6), Terminal(5), Nonterminal(64), Terminal(2),
    Action(13), Terminal(11), Action(1), Terminal(1), Terminal(12), Action(0),
    Nonterminal(13), Terminal(13), Action(2), Nonterminal(6), Nonterminal(52), Action(14),
    Terminal(15), Nonterminal(5), Action(15), Action(16), Action(1), Terminal(1),
    Nonterminal(4), Action(15), Action(17), Terminal(16), Terminal(17), Nonterminal(16),
    Action(16), Action(0), Nonterminal(9), Nonterminal(8), Action(18), Action(0),
    Terminal(18), Nonterminal(10), Nonterminal(52), Action(19), Action(0), Nonterminal(10),
    Nonterminal(52), Action(20), Terminal(12), Action(0), Nonterminal(13), Terminal(13),
    Action(2), Action(0), Action(2), Terminal(19), Terminal(5), Nonterminal(64),
    Action(16), Action(0), Action(1), Terminal(1), Nonterminal(12), Action(15),
    Terminal(15), Action(1), Terminal(1), Nonterminal(12), Nonterminal(15), Nonterminal(14),
    Terminal(20), Nonterminal(15), Nonterminal(14), Action(0), Terminal(21), Action(1),
    Terminal(1), Terminal(17), Nonterminal(16), Action(21), Action(0), Action(1),
    Terminal(1), Terminal(17), Nonterminal(16), Action(22), Nonterminal(11), Action(23),
    Action(24), Terminal(22), Nonterminal(17), Action(25), Terminal(23), Action(26),
    Terminal(24), Action(27), Terminal(25), Action(28), Terminal(26), Action(0),
    Terminal(27), Terminal(28), Nonterminal(16), Nonterminal(18), Terminal(123), Action(29),
    Action(0), Terminal(29), Terminal(28), Nonterminal(16), Terminal(123), Action(30),
    Action(0), Terminal(30), Terminal(28), Nonterminal(16), Terminal(123), Action(31),
    Action(0), Terminal(31), Terminal(28), Nonterminal(16), Terminal(20), Nonterminal(16),
    Terminal(123), Action(32), Action(0), Terminal(32), Terminal(33), Nonterminal(19),
    Nonterminal(21), Terminal(34), Action(33), Action(0), Terminal(35), Terminal(12),
    Action(34), Terminal(36), Terminal(13), Terminal(33), Action(0), Nonterminal(23),
    Action(2), Terminal(34), Action(35), Action(0), Terminal(37), Nonterminal(9),
    Terminal(33), Action(0), Nonterminal(26), Action(2), Terminal(34), Action(36),
    Action(37), Terminal(20), Nonterminal(16), Nonterminal(18), Action(0), Action(1),
    Terminal(1), Nonterminal(20), Action(38), Terminal(5), Nonterminal(64), Action(16),
    Terminal(20), Nonterminal(22), Nonterminal(19), Nonterminal(21), Nonterminal(24), Nonterminal(23),
    Action(0), Action(1), Terminal(1), Terminal(17), Action(34), Terminal(36),
    Nonterminal(25), Terminal(2), Action(39), Terminal(38), Action(34), Terminal(36),
    Action(16), Nonterminal(27), Nonterminal(26), Action(0), Terminal(39), Terminal(2),
    Action(40), Action(0), Terminal(4), Terminal(5), Nonterminal(11), Terminal(2),
    Action(41), Action(0), Terminal(40), Terminal(5), Action(6), Terminal(7),
    Terminal(2), Action(42), Action(0), Terminal(41), Terminal(5), Action(6),
    Terminal(7), Terminal(2), Action(43), Action(0), Terminal(42), Action(1),
    Terminal(1), Terminal(17), Nonterminal(16), Nonterminal(20), Terminal(2), Action(44),
    Action(0), Terminal(43), Action(1), Terminal(1), Terminal(2), Action(45),
    Action(0), Terminal(14), Nonterminal(28), Nonterminal(7), Nonterminal(29), Action(46),
    Nonterminal(30), Action(47), Action(48), Terminal(1), Action(49), Terminal(16),
    Terminal(2), Nonterminal(37), Action(0), Terminal(44), Nonterminal(31), Terminal(12),
    Nonterminal(64), Terminal(13), Terminal(33), Action(0), Nonterminal(32), Action(2),
    Terminal(34), Nonterminal(29), Action(50), Action(16), Terminal(33), Action(0),
    Nonterminal(34), Action(2), Terminal(34), Nonterminal(29), Action(50), Nonterminal(33),
    Nonterminal(32), Action(0), Action(51), Terminal(45), Terminal(46), Nonterminal(35),
    Action(52), Action(0), Action(0), Nonterminal(64), Nonterminal(51), Action(53),
    Terminal(46), Nonterminal(35), Action(52), Action(0), Action(54), Terminal(46),
    Nonterminal(35), Action(52), Nonterminal(34), Action(55), Terminal(2), Action(0),
    Nonterminal(30), Action(56), Action(0), Terminal(33), Nonterminal(36), Terminal(34),
    Nonterminal(29), Action(57), Nonterminal(30), Nonterminal(36), Action(0), Action(1),
    Terminal(1), Nonterminal(38), Action(0), Action(16), Nonterminal(38), Terminal(17),
    Nonterminal(47), Action(0), Nonterminal(39), Action(2), Action(0), Nonterminal(41),
    Action(2), Nonterminal(42), Nonterminal(43), Nonterminal(44), Action(58), Action(59),
    Action(0), Terminal(47), Nonterminal(40), Terminal(48), Action(60), Nonterminal(39),
    Nonterminal(64), Action(16), Action(0), Terminal(49), Nonterminal(20), Action(61),
    Nonterminal(41), Terminal(50), Terminal(12), Nonterminal(64), Terminal(13), Action(16),
    Terminal(46), Nonterminal(64), Action(16), Action(0), Terminal(2), Action(2),
    Action(0), Nonterminal(46), Nonterminal(45), Nonterminal(29), Action(2), Nonterminal(46),
    Nonterminal(45), Action(0), Terminal(18), Nonterminal(10), Nonterminal(52), Action(19),
    Action(0), Terminal(19), Terminal(5), Nonterminal(64), Nonterminal(52), Action(20),
    Action(0), Action(16), Nonterminal(52), Action(20), Nonterminal(11), Nonterminal(48),
    Action(0), Terminal(22), Nonterminal(49), Nonterminal(17), Action(62), Action(63),
    Terminal(51), Action(64), Terminal(52), Action(0), Terminal(12), Nonterminal(47),
    Action(0), Nonterminal(39), Action(2), Action(0), Nonterminal(41), Action(2),
    Terminal(13), Action(65), Terminal(12), Action(0), Nonterminal(50), Terminal(13),
    Action(2), Action(66), Action(23), Action(62), Terminal(12), Action(34),
    Terminal(36), Terminal(13), Action(67), Action(68), Action(62), Nonterminal(64),
    Nonterminal(51), Terminal(20), Nonterminal(64), Nonterminal(51), Action(0), Terminal(33),
    Nonterminal(53), Terminal(34), Action(69), Nonterminal(54), Nonterminal(53), Action(0),
    Terminal(50), Action(0), Nonterminal(55), Nonterminal(56), Nonterminal(58), Action(0),
    Terminal(12), Nonterminal(64), Terminal(13), Nonterminal(54), Action(70), Terminal(53),
    Nonterminal(57), Action(2), Action(16), Action(71), Terminal(50), Nonterminal(55),
    Nonterminal(56), Action(2), Nonterminal(58), Action(71), Nonterminal(52), Action(72),
    Action(0), Terminal(54), Action(1), Terminal(1), Nonterminal(59), Terminal(2),
    Action(73), Action(0), Terminal(55), Terminal(12), Nonterminal(64), Terminal(13),
    Nonterminal(54), Action(74), Action(0), Terminal(56), Terminal(12), Action(1),
    Terminal(1), Terminal(57), Nonterminal(64), Terminal(13), Nonterminal(54), Action(75),
    Action(0), Terminal(44), Terminal(12), Nonterminal(64), Terminal(13), Terminal(33),
    Action(0), Nonterminal(60), Action(2), Nonterminal(61), Terminal(34), Action(76),
    Action(0), Terminal(58), Nonterminal(40), Terminal(2), Action(77), Action(0),
    Terminal(59), Terminal(2), Action(78), Action(0), Terminal(60), Terminal(2),
    Action(79), Action(0), Terminal(61), Terminal(2), Action(80), Action(0),
    Terminal(62), Terminal(2), Action(81), Action(0), Terminal(63), Terminal(2),
    Action(82), Action(0), Terminal(64), Nonterminal(64), Nonterminal(51), Terminal(2),
    Action(83), Action(0), Terminal(65), Nonterminal(64), Terminal(2), Action(84),
    Action(0), Terminal(66), Nonterminal(64), Nonterminal(62), Terminal(2), Action(85),
    Action(0), Terminal(67), Nonterminal(64), Terminal(2), Action(86), Action(0),
    Terminal(68), Nonterminal(64), Terminal(2), Action(87), Action(0), Nonterminal(64),
    Nonterminal(63), Terminal(17), Nonterminal(16), Nonterminal(20), Action(16), Terminal(5),
    Nonterminal(64), Action(0), Terminal(69), Action(0), Nonterminal(64), Nonterminal(51),
    Action(2), Terminal(17), Nonterminal(54), Action(88), Nonterminal(60), Terminal(70),
    Terminal(17), Nonterminal(54), Action(16), Terminal(17), Action(6), Terminal(7),
    Action(16), Terminal(5), Nonterminal(64), Terminal(2), Action(89), Terminal(71),
    Nonterminal(64), Terminal(2), Action(90), Terminal(72), Nonterminal(64), Terminal(2),
    Action(91), Terminal(2), Action(92), Nonterminal(66), Nonterminal(65), Terminal(73),
    Nonterminal(64), Terminal(17), Nonterminal(64), Action(93), Nonterminal(68), Nonterminal(67),
    Terminal(74), Nonterminal(68), Action(94), Nonterminal(67), Nonterminal(70), Nonterminal(69),
    Terminal(75), Nonterminal(70), Action(95), Nonterminal(69), Nonterminal(72), Nonterminal(71),
    Terminal(57), Nonterminal(72), Action(96), Nonterminal(71), Terminal(76), Nonterminal(72),
    Action(97), Nonterminal(71), Nonterminal(74), Nonterminal(73), Terminal(77), Nonterminal(74),
    Action(98), Nonterminal(73), Terminal(78), Nonterminal(74), Action(99), Nonterminal(73),
    Nonterminal(76), Nonterminal(75), Terminal(28), Nonterminal(76), Action(100), Nonterminal(75),
    Terminal(79), Nonterminal(76), Action(101), Nonterminal(75), Terminal(120), Nonterminal(76),
    Action(102), Nonterminal(75), Terminal(80), Nonterminal(76), Action(103), Nonterminal(75),
    Nonterminal(78), Nonterminal(77), Terminal(81), Nonterminal(78), Action(104), Nonterminal(77),
    Nonterminal(80), Nonterminal(79), Terminal(82), Nonterminal(80), Action(105), Nonterminal(79),
    Nonterminal(82), Nonterminal(81), Terminal(83), Nonterminal(82), Action(106), Nonterminal(81),
    Nonterminal(84), Nonterminal(83), Terminal(84), Nonterminal(84), Action(107), Nonterminal(83),
    Terminal(121), Nonterminal(84), Action(108), Nonterminal(83), Nonterminal(86), Nonterminal(85),
    Terminal(85), Nonterminal(86), Action(109), Nonterminal(85), Terminal(86), Nonterminal(86),
    Action(110), Nonterminal(85), Nonterminal(88), Nonterminal(87), Terminal(45), Nonterminal(88),
    Action(111), Nonterminal(87), Terminal(87), Nonterminal(88), Action(112), Nonterminal(87),
    Terminal(88), Nonterminal(88), Action(113), Nonterminal(87), Action(0), Terminal(89),
    Nonterminal(88), Action(114), Action(0), Terminal(86), Nonterminal(88), Action(115),
    Action(0), Terminal(90), Nonterminal(88), Action(116), Nonterminal(91), Nonterminal(89),
    Terminal(91), Nonterminal(90), Action(117), Nonterminal(89), Terminal(92), Action(1),
    Terminal(1), Action(118), Nonterminal(89), Terminal(47), Nonterminal(64), Terminal(48),
    Action(119), Nonterminal(89), Terminal(12), Action(0), Nonterminal(50), Terminal(13),
    Action(2), Action(120), Nonterminal(89), Action(1), Terminal(1), Action(1),
    Terminal(93), Nonterminal(11), Action(121), Action(122), Terminal(94), Action(123),
    Terminal(95), Action(124), Terminal(36), Action(125), Terminal(7), Action(126),
    Terminal(51), Action(127), Terminal(52), Action(128), Terminal(96), Action(129),
    Terminal(97), Action(0), Terminal(12), Nonterminal(64), Nonterminal(92), Action(0),
    Terminal(47), Nonterminal(64), Nonterminal(51), Terminal(48), Action(130), Action(0),
    Terminal(30), Nonterminal(93), Action(0), Terminal(31), Nonterminal(94), Action(0),
    Terminal(29), Terminal(28), Nonterminal(16), Terminal(123), Terminal(12), Terminal(13),
    Action(131), Action(0), Terminal(22), Terminal(12), Action(34), Terminal(36),
    Terminal(13), Action(132), Action(0), Terminal(98), Terminal(28), Nonterminal(16),
    Terminal(123), Terminal(12), Nonterminal(64), Terminal(13), Action(133), Action(0),
    Terminal(99), Nonterminal(11), Nonterminal(97), Action(134), Action(0), Terminal(81),
    Nonterminal(78), Terminal(81), Action(135), Terminal(13), Action(136), Terminal(20),
    Nonterminal(64), Nonterminal(51), Terminal(13), Action(137), Terminal(12), Nonterminal(64),
    Nonterminal(51), Terminal(13), Action(138), Terminal(28), Nonterminal(16), Terminal(123),
    Terminal(12), Terminal(13), Action(139), Terminal(12), Nonterminal(96), Nonterminal(95),
    Terminal(13), Action(140), Terminal(28), Nonterminal(16), Terminal(20), Nonterminal(16),
    Terminal(123), Terminal(12), Terminal(13), Action(141), Terminal(20), Nonterminal(96),
    Nonterminal(95), Action(0), Nonterminal(64), Terminal(17), Nonterminal(64), Action(142),
    Terminal(12), Action(0), Nonterminal(50), Terminal(13), Action(2), Action(0),
    Action(2),
];

/// The productions.
#[rattlefmt::skip]
pub static ROWS: [Row; 251] = [
    Row { select: 0x1, avoid: 0x0, from: 0, to: 9 }, // Module = @begin module @name ID ; @begin Decls @row @module_decl
    Row { select: 0x4f58, avoid: 0x0, from: 9, to: 11 }, // Decls = Decl Decls
    Row { select: 0x10000000000000000000000000000000, avoid: 0x0, from: 11, to: 11 }, // Decls = nothing
    Row { select: 0x8, avoid: 0x0, from: 11, to: 17 }, // Decl = @begin import @name ID ; @import_decl
    Row { select: 0x10, avoid: 0x0, from: 17, to: 23 }, // Decl = @begin %byte-order = Path ; @byte_order_decl
    Row { select: 0x40, avoid: 0x0, from: 23, to: 30 }, // Decl = @begin %spicy-version = @string STRING ; @version_decl
    Row { select: 0x100, avoid: 0x0, from: 30, to: 33 }, // Decl = @begin public Public
    Row { select: 0x200, avoid: 0x0, from: 33, to: 41 }, // Decl = @begin type @name ID = TypeTree ; @type_decl
    Row { select: 0x400, avoid: 0x0, from: 41, to: 50 }, // Decl = @begin const @name ID OptType = Expr ; @const_decl
    Row { select: 0x800, avoid: 0x0, from: 50, to: 62 }, // Decl = @begin function @name ID ( @begin OptParams ) @row OptType Block @function_decl
    Row { select: 0x4000, avoid: 0x0, from: 62, to: 70 }, // Decl = @begin on @begin @name ID OnPath Hook @on_decl
    Row { select: 0x200, avoid: 0x0, from: 70, to: 77 }, // Public = type @name ID = TypeTree ; @public_type_decl
    Row { select: 0x400, avoid: 0x0, from: 77, to: 85 }, // Public = const @name ID OptType = Expr ; @public_const_decl
    Row { select: 0x800, avoid: 0x0, from: 85, to: 96 }, // Public = function @name ID ( @begin OptParams ) @row OptType Block @public_function_decl
    Row { select: 0x8000, avoid: 0x0, from: 96, to: 98 }, // OnPath = :: OnName
    Row { select: 0x2000c1000, avoid: 0x0, from: 98, to: 100 }, // OnPath = @path @absent
    Row { select: 0x2, avoid: 0x0, from: 100, to: 103 }, // OnName = @name ID OnPath
    Row { select: 0x10000, avoid: 0x0, from: 103, to: 106 }, // OnName = @path @hook_name HOOK
    Row { select: 0x20000, avoid: 0x0, from: 106, to: 108 }, // OptType = : TypeTree
    Row { select: 0x200000020, avoid: 0x0, from: 108, to: 109 }, // OptType = @absent
    Row { select: 0x2000c1000, avoid: 0x0, from: 109, to: 113 }, // Hook = @begin OptParen HookTail @hook
    Row { select: 0x40000, avoid: 0x0, from: 113, to: 118 }, // HookTail = @begin foreach OptPriority Block @each_body
    Row { select: 0x200080000, avoid: 0x0, from: 118, to: 122 }, // HookTail = @begin OptPriority Block @hook_body
    Row { select: 0x1000, avoid: 0x0, from: 122, to: 127 }, // OptParen = ( @begin OptParams ) @row
    Row { select: 0x2000c0000, avoid: 0x0, from: 127, to: 129 }, // OptParen = @begin @row
    Row { select: 0x80000, avoid: 0x0, from: 129, to: 132 }, // OptPriority = &priority = Expr
    Row { select: 0x200000000, avoid: 0x0, from: 132, to: 133 }, // OptPriority = @absent
    Row { select: 0x2, avoid: 0x0, from: 133, to: 138 }, // Path = @begin @name ID PathTail @path
    Row { select: 0x8000, avoid: 0x0, from: 138, to: 142 }, // PathTail = :: @name ID PathTail
    Row { select: 0x1700000019ffff800207e006101e3024, avoid: 0x0, from: 142, to: 142 }, // PathTail = nothing
    Row { select: 0x200002, avoid: 0x0, from: 142, to: 144 }, // OptParams = Param Params
    Row { select: 0x2000, avoid: 0x0, from: 144, to: 144 }, // OptParams = nothing
    Row { select: 0x100000, avoid: 0x0, from: 144, to: 147 }, // Params = , Param Params
    Row { select: 0x2000, avoid: 0x0, from: 147, to: 147 }, // Params = nothing
    Row { select: 0x200000, avoid: 0x0, from: 147, to: 154 }, // Param = @begin inout @name ID : TypeTree @inout_parameter
    Row { select: 0x2, avoid: 0x0, from: 154, to: 160 }, // Param = @begin @name ID : TypeTree @parameter
    Row { select: 0x2, avoid: 0x0, from: 160, to: 162 }, // TypeTree = Path @path_type
    Row { select: 0x400000, avoid: 0x0, from: 162, to: 164 }, // TypeTree = @int_type INT
    Row { select: 0x29ef800000, avoid: 0x0, from: 164, to: 165 }, // TypeTree = Plain
    Row { select: 0x800000, avoid: 0x0, from: 165, to: 167 }, // Plain = @bool_type bool
    Row { select: 0x1000000, avoid: 0x0, from: 167, to: 169 }, // Plain = @bytes_type bytes
    Row { select: 0x2000000, avoid: 0x0, from: 169, to: 171 }, // Plain = @string_type string
    Row { select: 0x4000000, avoid: 0x0, from: 171, to: 173 }, // Plain = @void_type void
    Row { select: 0x8000000, avoid: 0x0, from: 173, to: 180 }, // Plain = @begin tuple < TypeTree Types CLOSE @tuple_type
    Row { select: 0x20000000, avoid: 0x0, from: 180, to: 186 }, // Plain = @begin vector < TypeTree CLOSE @vector_type
    Row { select: 0x40000000, avoid: 0x0, from: 186, to: 192 }, // Plain = @begin set < TypeTree CLOSE @set_type
    Row { select: 0x80000000, avoid: 0x0, from: 192, to: 200 }, // Plain = @begin map < TypeTree , TypeTree CLOSE @map_type
    Row { select: 0x100000000, avoid: 0x0, from: 200, to: 207 }, // Plain = @begin enum { Label Labels } @enum_type
    Row { select: 0x800000000, avoid: 0x0, from: 207, to: 219 }, // Plain = @begin bitfield ( @number NUM ) { @begin Ranges @row } @bitfield_type
    Row { select: 0x2000000000, avoid: 0x0, from: 219, to: 229 }, // Plain = @begin unit OptParen { @begin Items @row } @unit @unit_type
    Row { select: 0x100000, avoid: 0x0, from: 229, to: 232 }, // Types = , TypeTree Types
    Row { select: 0x7000000000000000000000000000000, avoid: 0x0, from: 232, to: 232 }, // Types = nothing
    Row { select: 0x2, avoid: 0x0, from: 232, to: 237 }, // Label = @begin @name ID OptValue @label
    Row { select: 0x20, avoid: 0x0, from: 237, to: 239 }, // OptValue = = Expr
    Row { select: 0x64006001c2004, avoid: 0x0, from: 239, to: 240 }, // OptValue = @absent
    Row { select: 0x100000, avoid: 0x0, from: 240, to: 242 }, // Labels = , MoreLabels
    Row { select: 0x400000000, avoid: 0x0, from: 242, to: 242 }, // Labels = nothing
    Row { select: 0x2, avoid: 0x0, from: 242, to: 244 }, // MoreLabels = Label Labels
    Row { select: 0x400000000, avoid: 0x0, from: 244, to: 244 }, // MoreLabels = nothing
    Row { select: 0x2, avoid: 0x0, from: 244, to: 246 }, // Ranges = Range Ranges
    Row { select: 0x400000000, avoid: 0x0, from: 246, to: 246 }, // Ranges = nothing
    Row { select: 0x2, avoid: 0x0, from: 246, to: 255 }, // Range = @begin @name ID : @number NUM OptUpTo ; @bits
    Row { select: 0x4000000000, avoid: 0x0, from: 255, to: 258 }, // OptUpTo = .. @number NUM
    Row { select: 0x4, avoid: 0x0, from: 258, to: 259 }, // OptUpTo = @absent
    Row { select: 0x1f8000024012, avoid: 0x0, from: 259, to: 261 }, // Items = Item Items
    Row { select: 0x400000000, avoid: 0x0, from: 261, to: 261 }, // Items = nothing
    Row { select: 0x8000000000, avoid: 0x0, from: 261, to: 265 }, // Item = @begin %filter ; @filter_item
    Row { select: 0x10, avoid: 0x0, from: 265, to: 271 }, // Item = @begin %byte-order = Path ; @byte_order_item
    Row { select: 0x10000000000, avoid: 0x0, from: 271, to: 278 }, // Item = @begin %mime-type = @string STRING ; @mime_type_item
    Row { select: 0x20000000000, avoid: 0x0, from: 278, to: 285 }, // Item = @begin %description = @string STRING ; @description_item
    Row { select: 0x40000000000, avoid: 0x0, from: 285, to: 294 }, // Item = @begin var @name ID : TypeTree OptValue ; @variable_item
    Row { select: 0x80000000000, avoid: 0x0, from: 294, to: 300 }, // Item = @begin sink @name ID ; @sink_item
    Row { select: 0x4000, avoid: 0x0, from: 300, to: 306 }, // Item = @begin on ItemOn Hook OptSemi @on_item
    Row { select: 0x100000020002, avoid: 0x0, from: 306, to: 308 }, // Item = UnitPart @part_item
    Row { select: 0x2, avoid: 0x0, from: 308, to: 310 }, // ItemOn = @name_target ID
    Row { select: 0x10000, avoid: 0x0, from: 310, to: 312 }, // ItemOn = @hook_target HOOK
    Row { select: 0x4, avoid: 0x0, from: 312, to: 313 }, // OptSemi = ;
    Row { select: 0xfc64200000018ff94e0425092, avoid: 0x0, from: 313, to: 313 }, // OptSemi = nothing
    Row { select: 0x20002, avoid: 0x0, from: 313, to: 314 }, // UnitPart = Field
    Row { select: 0x100000000000, avoid: 0x0, from: 314, to: 317 }, // UnitPart = @begin switch Switch
    Row { select: 0x1000, avoid: 0x0, from: 317, to: 327 }, // Switch = ( Expr ) { @begin ValueArms @row } OptSemi @switch_part
    Row { select: 0x200000000, avoid: 0x0, from: 327, to: 335 }, // Switch = @absent { @begin PlainArms @row } OptSemi @switch_part
    Row { select: 0xfc64200000018a010e0401082, avoid: 0x0, from: 335, to: 337 }, // ValueArms = ValueArm ValueArms
    Row { select: 0x400000000, avoid: 0x0, from: 337, to: 337 }, // ValueArms = nothing
    Row { select: 0x200000000000, avoid: 0x0, from: 337, to: 343 }, // ValueArm = @begin @otherwise_guard * -> Arm @arm
    Row { select: 0xfc642000000188010e0401082, avoid: 0x0, from: 343, to: 351 }, // ValueArm = @begin @begin Expr Exprs @values_guard -> Arm @arm
    Row { select: 0x400000000000, avoid: 0x0, from: 351, to: 357 }, // PlainArms = @begin @look_ahead_guard -> Arm @arm PlainArms
    Row { select: 0x400000000, avoid: 0x0, from: 357, to: 357 }, // PlainArms = nothing
    Row { select: 0x4, avoid: 0x0, from: 357, to: 359 }, // Arm = @nothing_body ;
    Row { select: 0x100000020002, avoid: 0x0, from: 359, to: 362 }, // Arm = @begin UnitPart @one_body
    Row { select: 0x200000000, avoid: 0x0, from: 362, to: 368 }, // Arm = @begin { Parts } OptSemi @many_body
    Row { select: 0x100000020002, avoid: 0x0, from: 368, to: 370 }, // Parts = UnitPart Parts
    Row { select: 0x400000000, avoid: 0x0, from: 370, to: 370 }, // Parts = nothing
    Row { select: 0x2, avoid: 0x0, from: 370, to: 374 }, // Field = @begin @name ID FieldTail
    Row { select: 0x20000, avoid: 0x0, from: 374, to: 377 }, // Field = @begin @absent FieldTail
    Row { select: 0x20000, avoid: 0x0, from: 377, to: 390 }, // FieldTail = : Base @begin Counts @row @begin Attrs @row OptIf OptSink FieldEnd @field @field_part
    Row { select: 0x800000000000, avoid: 0x0, from: 390, to: 396 }, // Counts = @begin [ OptExpr ] @count Counts
    Row { select: 0x64002000c2004, avoid: 0x0, from: 396, to: 396 }, // Counts = nothing
    Row { select: 0xfc642000000188010e0401082, avoid: 0x0, from: 396, to: 397 }, // OptExpr = Expr
    Row { select: 0x1000000000004, avoid: 0x0, from: 397, to: 398 }, // OptExpr = @absent
    Row { select: 0x2000000000000, avoid: 0x0, from: 398, to: 403 }, // Attrs = @begin ATTR OptValue @attribute Attrs
    Row { select: 0x44002000c2004, avoid: 0x0, from: 403, to: 403 }, // Attrs = nothing
    Row { select: 0x4000000000000, avoid: 0x0, from: 403, to: 407 }, // OptIf = if ( Expr )
    Row { select: 0x4002000c0004, avoid: 0x0, from: 407, to: 408 }, // OptIf = @absent
    Row { select: 0x400000000000, avoid: 0x0, from: 408, to: 410 }, // OptSink = -> Expr
    Row { select: 0x2000c0004, avoid: 0x0, from: 410, to: 411 }, // OptSink = @absent
    Row { select: 0x4, avoid: 0x0, from: 411, to: 414 }, // FieldEnd = @begin ; @row
    Row { select: 0x2000c0000, avoid: 0x0, from: 414, to: 419 }, // FieldEnd = @begin FieldHook FieldHooks OptSemi @row
    Row { select: 0x2000c0000, avoid: 0x0, from: 419, to: 421 }, // FieldHooks = FieldHook FieldHooks
    Row { select: 0xfc64200000018ff94e0425096, avoid: 0x0, from: 421, to: 421 }, // FieldHooks = nothing
    Row { select: 0x40000, avoid: 0x0, from: 421, to: 426 }, // FieldHook = @begin foreach OptPriority Block @each_body
    Row { select: 0x80000, avoid: 0x0, from: 426, to: 432 }, // FieldHook = @begin &priority = Expr Block @hook_body
    Row { select: 0x200000000, avoid: 0x0, from: 432, to: 436 }, // FieldHook = @begin @absent Block @hook_body
    Row { select: 0x2, avoid: 0x0, from: 436, to: 438 }, // Base = Path BaseTail
    Row { select: 0x400000, avoid: 0x0, from: 438, to: 441 }, // Base = @begin INT OptNum
    Row { select: 0x29ef800000, avoid: 0x0, from: 441, to: 443 }, // Base = Plain @type_base
    Row { select: 0x8000000000000, avoid: 0x0, from: 443, to: 445 }, // Base = @bytes_base BYTES
    Row { select: 0x10000000000000, avoid: 0x0, from: 445, to: 447 }, // Base = @regex_base REGEX
    Row { select: 0x1000, avoid: 0x0, from: 447, to: 458 }, // Base = @begin ( Base @begin Counts @row @begin Attrs @row ) @group_base
    Row { select: 0x1000, avoid: 0x0, from: 458, to: 464 }, // BaseTail = ( @begin Args ) @row @unit_base
    Row { select: 0x6c002000c2004, avoid: 0x0, from: 464, to: 466 }, // BaseTail = @path_type @type_base
    Row { select: 0x1000, avoid: 0x0, from: 466, to: 471 }, // OptNum = ( @number NUM ) @number_base
    Row { select: 0x6c002000c2004, avoid: 0x0, from: 471, to: 473 }, // OptNum = @int_base @type_base
    Row { select: 0xfc642000000188010e0401082, avoid: 0x0, from: 473, to: 475 }, // Args = Expr Exprs
    Row { select: 0x2000, avoid: 0x0, from: 475, to: 475 }, // Args = nothing
    Row { select: 0x100000, avoid: 0x0, from: 475, to: 478 }, // Exprs = , Expr Exprs
    Row { select: 0x1400000022004, avoid: 0x0, from: 478, to: 478 }, // Exprs = nothing
    Row { select: 0x200000000, avoid: 0x0, from: 478, to: 483 }, // Block = @begin { Stmts } @block
    Row { select: 0xfc642001ffddc9012e0401082, avoid: 0x0, from: 483, to: 485 }, // Stmts = Stmt Stmts
    Row { select: 0x400000000, avoid: 0x0, from: 485, to: 485 }, // Stmts = nothing
    Row { select: 0x4000000000000, avoid: 0x0, from: 485, to: 490 }, // Stmt = @begin if @begin Branch OptElse
    Row { select: 0xfc642001ffdd89012e0401082, avoid: 0x0, from: 490, to: 491 }, // Stmt = Other
    Row { select: 0x1000, avoid: 0x0, from: 491, to: 497 }, // Branch = @begin ( Expr ) Stmt @branch
    Row { select: 0x20000000000000, avoid: 0x0, from: 497, to: 499 }, // OptElse = else Else
    Row { select: 0x1000000fc642007ffddc9016e0401082, avoid: 0x20000000000000, from: 499, to: 502 }, // OptElse = @row @absent @if_stmt
    Row { select: 0x4000000000000, avoid: 0x0, from: 502, to: 505 }, // Else = if Branch OptElse
    Row { select: 0xfc642001ffdd89012e0401082, avoid: 0x0, from: 505, to: 508 }, // Else = @row Other @if_stmt
    Row { select: 0x200000000, avoid: 0x0, from: 508, to: 510 }, // Other = Block @block_stmt
    Row { select: 0x40000000000000, avoid: 0x0, from: 510, to: 517 }, // Other = @begin local @name ID Local ; @local_stmt
    Row { select: 0x80000000000000, avoid: 0x0, from: 517, to: 524 }, // Other = @begin while ( Expr ) Stmt @while_stmt
    Row { select: 0x100000000000000, avoid: 0x0, from: 524, to: 534 }, // Other = @begin for ( @name ID in Expr ) Stmt @for_stmt
    Row { select: 0x100000000000, avoid: 0x0, from: 534, to: 546 }, // Other = @begin switch ( Expr ) { @begin Cases @row OptDefault } @switch_stmt
    Row { select: 0x400000000000000, avoid: 0x0, from: 546, to: 551 }, // Other = @begin return OptExpr ; @return_stmt
    Row { select: 0x800000000000000, avoid: 0x0, from: 551, to: 555 }, // Other = @begin break ; @break_stmt
    Row { select: 0x1000000000000000, avoid: 0x0, from: 555, to: 559 }, // Other = @begin continue ; @continue_stmt
    Row { select: 0x2000000000000000, avoid: 0x0, from: 559, to: 563 }, // Other = @begin stop ; @stop_stmt
    Row { select: 0x4000000000000000, avoid: 0x0, from: 563, to: 567 }, // Other = @begin confirm ; @confirm_stmt
    Row { select: 0x8000000000000000, avoid: 0x0, from: 567, to: 571 }, // Other = @begin reject ; @reject_stmt
    Row { select: 0x10000000000000000, avoid: 0x0, from: 571, to: 577 }, // Other = @begin print Expr Exprs ; @print_stmt
    Row { select: 0x20000000000000000, avoid: 0x0, from: 577, to: 582 }, // Other = @begin throw Expr ; @throw_stmt
    Row { select: 0x40000000000000000, avoid: 0x0, from: 582, to: 588 }, // Other = @begin assert Expr OptText ; @assert_stmt
    Row { select: 0x80000000000000000, avoid: 0x0, from: 588, to: 593 }, // Other = @begin add Expr ; @add_stmt
    Row { select: 0x100000000000000000, avoid: 0x0, from: 593, to: 598 }, // Other = @begin delete Expr ; @delete_stmt
    Row { select: 0xfc642000000188010e0401082, avoid: 0x0, from: 598, to: 601 }, // Other = @begin Expr OptAssign
    Row { select: 0x20000, avoid: 0x0, from: 601, to: 604 }, // Local = : TypeTree OptValue
    Row { select: 0x20, avoid: 0x0, from: 604, to: 607 }, // Local = @absent = Expr
    Row { select: 0x200000000000000000, avoid: 0x0, from: 607, to: 617 }, // Cases = @begin case @begin Expr Exprs @row : Stmt @case Cases
    Row { select: 0x400000000400000000, avoid: 0x0, from: 617, to: 617 }, // Cases = nothing
    Row { select: 0x400000000000000000, avoid: 0x0, from: 617, to: 620 }, // OptDefault = default : Stmt
    Row { select: 0x400000000, avoid: 0x0, from: 620, to: 621 }, // OptDefault = @absent
    Row { select: 0x20000, avoid: 0x0, from: 621, to: 624 }, // OptText = : @string STRING
    Row { select: 0x4, avoid: 0x0, from: 624, to: 625 }, // OptText = @absent
    Row { select: 0x20, avoid: 0x0, from: 625, to: 629 }, // OptAssign = = Expr ; @set_stmt
    Row { select: 0x800000000000000000, avoid: 0x0, from: 629, to: 633 }, // OptAssign = += Expr ; @add_to_stmt
    Row { select: 0x1000000000000000000, avoid: 0x0, from: 633, to: 637 }, // OptAssign = -= Expr ; @subtract_from_stmt
    Row { select: 0x4, avoid: 0x0, from: 637, to: 639 }, // OptAssign = ; @expr_stmt
    Row { select: 0xfc642000000188010e0401082, avoid: 0x0, from: 639, to: 641 }, // Expr = Or OptChoice
    Row { select: 0x2000000000000000000, avoid: 0x0, from: 641, to: 646 }, // OptChoice = ? Expr : Expr @choice
    Row { select: 0x100000000000018000074006001e2024, avoid: 0x0, from: 646, to: 646 }, // OptChoice = nothing
    Row { select: 0xfc642000000188010e0401082, avoid: 0x0, from: 646, to: 648 }, // Or = And OrTail
    Row { select: 0x4000000000000000000, avoid: 0x0, from: 648, to: 652 }, // OrTail = || And @or OrTail
    Row { select: 0x100000000000038000074006001e2024, avoid: 0x0, from: 652, to: 652 }, // OrTail = nothing
    Row { select: 0xfc642000000188010e0401082, avoid: 0x0, from: 652, to: 654 }, // And = Membership AndTail
    Row { select: 0x8000000000000000000, avoid: 0x0, from: 654, to: 658 }, // AndTail = && Membership @and AndTail
    Row { select: 0x100000000000078000074006001e2024, avoid: 0x0, from: 658, to: 658 }, // AndTail = nothing
    Row { select: 0xfc642000000188010e0401082, avoid: 0x0, from: 658, to: 660 }, // Membership = Equality MembershipTail
    Row { select: 0x200000000000000, avoid: 0x0, from: 660, to: 664 }, // MembershipTail = in Equality @in MembershipTail
    Row { select: 0x10000000000000000000, avoid: 0x0, from: 664, to: 668 }, // MembershipTail = !in Equality @not_in MembershipTail
    Row { select: 0x1000000000000f8000074006001e2024, avoid: 0x0, from: 668, to: 668 }, // MembershipTail = nothing
    Row { select: 0xfc642000000188010e0401082, avoid: 0x0, from: 668, to: 670 }, // Equality = Order EqualityTail
    Row { select: 0x20000000000000000000, avoid: 0x0, from: 670, to: 674 }, // EqualityTail = == Order @equal EqualityTail
    Row { select: 0x40000000000000000000, avoid: 0x0, from: 674, to: 678 }, // EqualityTail = != Order @not_equal EqualityTail
    Row { select: 0x1000000000001f8002074006001e2024, avoid: 0x0, from: 678, to: 678 }, // EqualityTail = nothing
    Row { select: 0xfc642000000188010e0401082, avoid: 0x0, from: 678, to: 680 }, // Order = BitOr OrderTail
    Row { select: 0x10000000, avoid: 0x0, from: 680, to: 684 }, // OrderTail = < BitOr @less OrderTail
    Row { select: 0x80000000000000000000, avoid: 0x0, from: 684, to: 688 }, // OrderTail = <= BitOr @less_equal OrderTail
    Row { select: 0x1000000000000000000000000000000, avoid: 0x0, from: 688, to: 692 }, // OrderTail = > BitOr @greater OrderTail
    Row { select: 0x100000000000000000000, avoid: 0x0, from: 692, to: 696 }, // OrderTail = >= BitOr @greater_equal OrderTail
    Row { select: 0x1000000000007f8002074006001e2024, avoid: 0x0, from: 696, to: 696 }, // OrderTail = nothing
    Row { select: 0xfc642000000188010e0401082, avoid: 0x0, from: 696, to: 698 }, // BitOr = BitXor BitOrTail
    Row { select: 0x200000000000000000000, avoid: 0x0, from: 698, to: 702 }, // BitOrTail = | BitXor @bit_or BitOrTail
    Row { select: 0x110000000001ff8002074006101e2024, avoid: 0x0, from: 702, to: 702 }, // BitOrTail = nothing
    Row { select: 0xfc642000000188010e0401082, avoid: 0x0, from: 702, to: 704 }, // BitXor = BitAnd BitXorTail
    Row { select: 0x400000000000000000000, avoid: 0x0, from: 704, to: 708 }, // BitXorTail = ^ BitAnd @bit_xor BitXorTail
    Row { select: 0x110000000003ff8002074006101e2024, avoid: 0x0, from: 708, to: 708 }, // BitXorTail = nothing
    Row { select: 0xfc642000000188010e0401082, avoid: 0x0, from: 708, to: 710 }, // BitAnd = Shift BitAndTail
    Row { select: 0x800000000000000000000, avoid: 0x0, from: 710, to: 714 }, // BitAndTail = & Shift @bit_and BitAndTail
    Row { select: 0x110000000007ff8002074006101e2024, avoid: 0x0, from: 714, to: 714 }, // BitAndTail = nothing
    Row { select: 0xfc642000000188010e0401082, avoid: 0x0, from: 714, to: 716 }, // Shift = Sum ShiftTail
    Row { select: 0x1000000000000000000000, avoid: 0x0, from: 716, to: 720 }, // ShiftTail = << Sum @shift_left ShiftTail
    Row { select: 0x2000000000000000000000000000000, avoid: 0x0, from: 720, to: 724 }, // ShiftTail = >> Sum @shift_right ShiftTail
    Row { select: 0x11000000000fff8002074006101e2024, avoid: 0x0, from: 724, to: 724 }, // ShiftTail = nothing
    Row { select: 0xfc642000000188010e0401082, avoid: 0x0, from: 724, to: 726 }, // Sum = Product SumTail
    Row { select: 0x2000000000000000000000, avoid: 0x0, from: 726, to: 730 }, // SumTail = + Product @add SumTail
    Row { select: 0x4000000000000000000000, avoid: 0x0, from: 730, to: 734 }, // SumTail = - Product @subtract SumTail
    Row { select: 0x13000000001fff8002074006101e2024, avoid: 0x0, from: 734, to: 734 }, // SumTail = nothing
    Row { select: 0xfc642000000188010e0401082, avoid: 0x0, from: 734, to: 736 }, // Product = Prefix ProductTail
    Row { select: 0x200000000000, avoid: 0x0, from: 736, to: 740 }, // ProductTail = * Prefix @multiply ProductTail
    Row { select: 0x8000000000000000000000, avoid: 0x0, from: 740, to: 744 }, // ProductTail = / Prefix @divide ProductTail
    Row { select: 0x10000000000000000000000, avoid: 0x0, from: 744, to: 748 }, // ProductTail = % Prefix @remainder ProductTail
    Row { select: 0x13000000007fff8002074006101e2024, avoid: 0x0, from: 748, to: 748 }, // ProductTail = nothing
    Row { select: 0x20000000000000000000000, avoid: 0x0, from: 748, to: 752 }, // Prefix = @begin ! Prefix @not
    Row { select: 0x4000000000000000000000, avoid: 0x0, from: 752, to: 756 }, // Prefix = @begin - Prefix @negate
    Row { select: 0x40000000000000000000000, avoid: 0x0, from: 756, to: 760 }, // Prefix = @begin ~ Prefix @complement
    Row { select: 0xfc002000000188010e0401082, avoid: 0x0, from: 760, to: 762 }, // Prefix = Primary Postfix
    Row { select: 0x80000000000000000000000, avoid: 0x0, from: 762, to: 766 }, // Postfix = . Member @member Postfix
    Row { select: 0x100000000000000000000000, avoid: 0x0, from: 766, to: 771 }, // Postfix = ?. @name ID @set_member Postfix
    Row { select: 0x800000000000, avoid: 0x0, from: 771, to: 776 }, // Postfix = [ Expr ] @index Postfix
    Row { select: 0x1000, avoid: 0x0, from: 776, to: 783 }, // Postfix = ( @begin Args ) @row @call Postfix
    Row { select: 0x1300000001ffff8002076006101e2024, avoid: 0x0, from: 783, to: 783 }, // Postfix = nothing
    Row { select: 0x2, avoid: 0x0, from: 783, to: 785 }, // Member = @name ID
    Row { select: 0x200000000000000000000000, avoid: 0x0, from: 785, to: 787 }, // Member = @name skip
    Row { select: 0x2, avoid: 0x0, from: 787, to: 789 }, // Primary = Path @path_expr
    Row { select: 0x400000000000000000000000, avoid: 0x0, from: 789, to: 791 }, // Primary = @self_expr self
    Row { select: 0x800000000000000000000000, avoid: 0x0, from: 791, to: 793 }, // Primary = @current_expr $$
    Row { select: 0x1000000000, avoid: 0x0, from: 793, to: 795 }, // Primary = @number_expr NUM
    Row { select: 0x80, avoid: 0x0, from: 795, to: 797 }, // Primary = @string_expr STRING
    Row { select: 0x8000000000000, avoid: 0x0, from: 797, to: 799 }, // Primary = @bytes_expr BYTES
    Row { select: 0x10000000000000, avoid: 0x0, from: 799, to: 801 }, // Primary = @regex_expr REGEX
    Row { select: 0x1000000000000000000000000, avoid: 0x0, from: 801, to: 803 }, // Primary = @true_expr True
    Row { select: 0x2000000000000000000000000, avoid: 0x0, from: 803, to: 805 }, // Primary = @false_expr False
    Row { select: 0x1000, avoid: 0x0, from: 805, to: 809 }, // Primary = @begin ( Expr Paren
    Row { select: 0x800000000000, avoid: 0x0, from: 809, to: 815 }, // Primary = @begin [ Expr Exprs ] @vector_expr
    Row { select: 0x40000000, avoid: 0x0, from: 815, to: 818 }, // Primary = @begin set Set
    Row { select: 0x80000000, avoid: 0x0, from: 818, to: 821 }, // Primary = @begin map Map
    Row { select: 0x20000000, avoid: 0x0, from: 821, to: 829 }, // Primary = @begin vector < TypeTree CLOSE ( ) @empty_vector_expr
    Row { select: 0x400000, avoid: 0x0, from: 829, to: 836 }, // Primary = @begin INT ( @number NUM ) @typed_number_expr
    Row { select: 0x4000000000000000000000000, avoid: 0x0, from: 836, to: 845 }, // Primary = @begin cast < TypeTree CLOSE ( Expr ) @cast_expr
    Row { select: 0x8000000000000000000000000, avoid: 0x0, from: 845, to: 850 }, // Primary = @begin new Path NewArgs @new_expr
    Row { select: 0x200000000000000000000, avoid: 0x0, from: 850, to: 855 }, // Primary = @begin | BitXor | @size_expr
    Row { select: 0x2000, avoid: 0x0, from: 855, to: 857 }, // Paren = ) @paren
    Row { select: 0x100000, avoid: 0x0, from: 857, to: 862 }, // Paren = , Expr Exprs ) @tuple_expr
    Row { select: 0x1000, avoid: 0x0, from: 862, to: 867 }, // Set = ( Expr Exprs ) @set_expr
    Row { select: 0x10000000, avoid: 0x0, from: 867, to: 873 }, // Set = < TypeTree CLOSE ( ) @empty_set_expr
    Row { select: 0x1000, avoid: 0x0, from: 873, to: 878 }, // Map = ( Pair Pairs ) @map_expr
    Row { select: 0x10000000, avoid: 0x0, from: 878, to: 886 }, // Map = < TypeTree , TypeTree CLOSE ( ) @empty_map_expr
    Row { select: 0x100000, avoid: 0x0, from: 886, to: 889 }, // Pairs = , Pair Pairs
    Row { select: 0x2000, avoid: 0x0, from: 889, to: 889 }, // Pairs = nothing
    Row { select: 0xfc642000000188010e0401082, avoid: 0x0, from: 889, to: 894 }, // Pair = @begin Expr : Expr @pair
    Row { select: 0x1000, avoid: 0x0, from: 894, to: 899 }, // NewArgs = ( @begin Args ) @row
    Row { select: 0x1300000019ffff800207e006101e2024, avoid: 0x1000, from: 899, to: 901 }, // NewArgs = @begin @row
];

/// The nonterminals.
#[rattlefmt::skip]
pub static SPANS: [Span; 98] = [
    Span { from: 0, to: 1 }, // Module
    Span { from: 1, to: 3 }, // Decls
    Span { from: 3, to: 11 }, // Decl
    Span { from: 11, to: 14 }, // Public
    Span { from: 14, to: 16 }, // OnPath
    Span { from: 16, to: 18 }, // OnName
    Span { from: 18, to: 20 }, // OptType
    Span { from: 20, to: 21 }, // Hook
    Span { from: 21, to: 23 }, // HookTail
    Span { from: 23, to: 25 }, // OptParen
    Span { from: 25, to: 27 }, // OptPriority
    Span { from: 27, to: 28 }, // Path
    Span { from: 28, to: 30 }, // PathTail
    Span { from: 30, to: 32 }, // OptParams
    Span { from: 32, to: 34 }, // Params
    Span { from: 34, to: 36 }, // Param
    Span { from: 36, to: 39 }, // TypeTree
    Span { from: 39, to: 50 }, // Plain
    Span { from: 50, to: 52 }, // Types
    Span { from: 52, to: 53 }, // Label
    Span { from: 53, to: 55 }, // OptValue
    Span { from: 55, to: 57 }, // Labels
    Span { from: 57, to: 59 }, // MoreLabels
    Span { from: 59, to: 61 }, // Ranges
    Span { from: 61, to: 62 }, // Range
    Span { from: 62, to: 64 }, // OptUpTo
    Span { from: 64, to: 66 }, // Items
    Span { from: 66, to: 74 }, // Item
    Span { from: 74, to: 76 }, // ItemOn
    Span { from: 76, to: 78 }, // OptSemi
    Span { from: 78, to: 80 }, // UnitPart
    Span { from: 80, to: 82 }, // Switch
    Span { from: 82, to: 84 }, // ValueArms
    Span { from: 84, to: 86 }, // ValueArm
    Span { from: 86, to: 88 }, // PlainArms
    Span { from: 88, to: 91 }, // Arm
    Span { from: 91, to: 93 }, // Parts
    Span { from: 93, to: 95 }, // Field
    Span { from: 95, to: 96 }, // FieldTail
    Span { from: 96, to: 98 }, // Counts
    Span { from: 98, to: 100 }, // OptExpr
    Span { from: 100, to: 102 }, // Attrs
    Span { from: 102, to: 104 }, // OptIf
    Span { from: 104, to: 106 }, // OptSink
    Span { from: 106, to: 108 }, // FieldEnd
    Span { from: 108, to: 110 }, // FieldHooks
    Span { from: 110, to: 113 }, // FieldHook
    Span { from: 113, to: 119 }, // Base
    Span { from: 119, to: 121 }, // BaseTail
    Span { from: 121, to: 123 }, // OptNum
    Span { from: 123, to: 125 }, // Args
    Span { from: 125, to: 127 }, // Exprs
    Span { from: 127, to: 128 }, // Block
    Span { from: 128, to: 130 }, // Stmts
    Span { from: 130, to: 132 }, // Stmt
    Span { from: 132, to: 133 }, // Branch
    Span { from: 133, to: 135 }, // OptElse
    Span { from: 135, to: 137 }, // Else
    Span { from: 137, to: 154 }, // Other
    Span { from: 154, to: 156 }, // Local
    Span { from: 156, to: 158 }, // Cases
    Span { from: 158, to: 160 }, // OptDefault
    Span { from: 160, to: 162 }, // OptText
    Span { from: 162, to: 166 }, // OptAssign
    Span { from: 166, to: 167 }, // Expr
    Span { from: 167, to: 169 }, // OptChoice
    Span { from: 169, to: 170 }, // Or
    Span { from: 170, to: 172 }, // OrTail
    Span { from: 172, to: 173 }, // And
    Span { from: 173, to: 175 }, // AndTail
    Span { from: 175, to: 176 }, // Membership
    Span { from: 176, to: 179 }, // MembershipTail
    Span { from: 179, to: 180 }, // Equality
    Span { from: 180, to: 183 }, // EqualityTail
    Span { from: 183, to: 184 }, // Order
    Span { from: 184, to: 189 }, // OrderTail
    Span { from: 189, to: 190 }, // BitOr
    Span { from: 190, to: 192 }, // BitOrTail
    Span { from: 192, to: 193 }, // BitXor
    Span { from: 193, to: 195 }, // BitXorTail
    Span { from: 195, to: 196 }, // BitAnd
    Span { from: 196, to: 198 }, // BitAndTail
    Span { from: 198, to: 199 }, // Shift
    Span { from: 199, to: 202 }, // ShiftTail
    Span { from: 202, to: 203 }, // Sum
    Span { from: 203, to: 206 }, // SumTail
    Span { from: 206, to: 207 }, // Product
    Span { from: 207, to: 211 }, // ProductTail
    Span { from: 211, to: 215 }, // Prefix
    Span { from: 215, to: 220 }, // Postfix
    Span { from: 220, to: 222 }, // Member
    Span { from: 222, to: 240 }, // Primary
    Span { from: 240, to: 242 }, // Paren
    Span { from: 242, to: 244 }, // Set
    Span { from: 244, to: 246 }, // Map
    Span { from: 246, to: 248 }, // Pairs
    Span { from: 248, to: 249 }, // Pair
    Span { from: 249, to: 251 }, // NewArgs
];
