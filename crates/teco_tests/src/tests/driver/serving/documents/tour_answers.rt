//! Examples of the pages, made by `tools/rows --write`.

pub(super) const EXAMPLES: &str = "
    // Answers
    YFSmilk$oat milk$HT$$ => BuyoatmilkBuyeggsCallAnnaBuybread => ? => Buy milk\nBuy eggs\nCall Anna\nBuy bread\n
    // Answers
    Y@FS/Call Anna//HT$$ => BuymilkBuyeggsBuybread => ? => Buy milk\nBuy eggs\nCall Anna\nBuy bread\n
    // Answers
    Y2LT$$ => CallAnna => ? => Buy milk\nBuy eggs\nCall Anna\nBuy bread\n
    // Answers
    YLKHT$$ => BuymilkCallAnnaBuybread => ? => Buy milk\nBuy eggs\nCall Anna\nBuy bread\n
    // Answers
    Y<FS\n$!\n$;>HT$$ => Buymilk!Buyeggs!CallAnna!Buybread! => ? => Buy milk\nBuy eggs\nCall Anna\nBuy bread\n
    // Answers
    Y<FSBuy$B$;>HT$$ => BmilkBeggsCallAnnaBbread => ? => Buy milk\nBuy eggs\nCall Anna\nBuy bread\n
    // Answers
    Y<.-Z;L%A$>QA=$$ => 4 => ? => Buy milk\nBuy eggs\nCall Anna\nBuy bread\n
    // Answers
    YXAKZJGAHT$$ => BuyeggsCallAnnaBuybreadBuymilk => ? => Buy milk\nBuy eggs\nCall Anna\nBuy bread\n
    // Answers
    @\x15S/0LI*$/YMSLMSHT$$ => *Buymilk*BuyeggsCallAnnaBuybread => ? => Buy milk\nBuy eggs\nCall Anna\nBuy bread\n
    // Answers
    @\x15S/0LI*$/Y<.-Z;MSL>HT$$ => *Buymilk*Buyeggs*CallAnna*Buybread => ? => Buy milk\nBuy eggs\nCall Anna\nBuy bread\n
    // Answers
    Y<J<FSBuy$Call$;>HT-1-\x0e;P>$$ => CallmilkCalleggsCallAnnaCallbread => ? => Buy milk\nBuy eggs\nCall Anna\nBuy bread\n
    // Answers
    Y<T-1-\x0e;P>$$ => Buymilk => ? => Buy milk\nBuy eggs\nCall Anna\nBuy bread\n
    // Answers
    Ia$$Ib$$Ic$$2{$$}$$HT$$ => ab => ? => Buy milk\nBuy eggs\nCall Anna\nBuy bread\n
    // Answers
    Ia$Ib$Ic$$1~$$HT$$ => a => ? => Buy milk\nBuy eggs\nCall Anna\nBuy bread\n
    // Answers
    Y:Sbeer$=$$ => 0 => ? => Buy milk\nBuy eggs\nCall Anna\nBuy bread\n
    // Answers
    Y<FSBuy$Get$HT$$ => GetmilkBuyeggsCallAnnaBuybread?UTC => ? => Buy milk\nBuy eggs\nCall Anna\nBuy bread\n
    ";
